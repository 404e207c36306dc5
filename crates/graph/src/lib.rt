// The founder-allele graph of a locus: the links of all persons whose reading is not silent, laid in a forest.
#![tactic(auto)]

ghost use Rattle.std.specs.Prelude.{◌≡◌, [], ◌∷◌, ◌++◌, if◌then◌else◌, Some, None, MatchResult};
ghost use Rattle.forest.specs.Laid.{laid, lay_answer, pass_answer};
ghost use Rattle.figures.specs.Graph.{Parts, links};
ghost use Rattle.figures.specs.Locus.{loud};
ghost use Rattle.sums.specs.Seen.{told, readings_at};
ghost use Rattle.graph.specs.Entries.{entries_of};

use forest::{Forest, LayFault};
use readings::model::Model;
use sums::{Site, is_loud};

// Lays one person more: with the link of its two slots where its reading says something, with none where it is silent. Refused, the forest is as it was.
fn lay_person<M: Model>(
    forest: &mut Forest,
    site: &Site<M>,
    person: usize,
    slots: (usize, usize),
) -> Result<(), LayFault>
    ensures answer { result ≡ (if loud (M.classes site.now.model.now site.now.locus person) then lay_answer (laid forest.old) slots else pass_answer (laid forest.old)) }
    ensures after { MatchResult result (λ _. laid forest.new ≡ laid forest.old ++ (if loud (M.classes site.now.model.now site.now.locus person) then Some slots else None) ∷ []) (λ _. forest.new ≡ forest.old) }
{
    if is_loud(site.model.class(site.locus, person)) {
        forest.lay(slots)
    } else {
        forest.pass()
    }
}

// The forest in which every person is laid, in order: with the link of its two slots where its reading says something, with none where it is silent.
pub fn lay_all<M: Model>(site: &Site<M>) -> Forest
    ensures { laid result ≡ entries_of (told site.now.held.now) (M.classes site.now.model.now site.now.locus) }
{
    let mut forest = Forest::new();
    for (person, slots) in site.held.pairs().iter().enumerate() {
        let laid = lay_person(&mut forest, site, person, *slots);
        // Nobody is refused: a family has no 65th person and no slot above 63.
        prove!(laid.is_ok());
    }
    forest
}

// The number of components of a locus.
pub fn parts<M: Model>(site: &Site<M>) -> usize
    ensures { Parts site.now.held.now.slots (links (readings_at M.classes M.fitting site.now)) result }
{
    lay_all(site).parts(site.held.slots)
}
