// The sum of a component: each allele of each slot is tried, and given up as soon as a reading does not fit.
ghost use Rattle.std.specs.Prelude.{◌≡◌, ℕ, ◌<◌, List, ◌++◌, length};
ghost use Rattle.std.specs.List.{range_with_len};
ghost use Rattle.figures.specs.Figure.{weights};
ghost use Rattle.figures.specs.Lists.{every, In};
ghost use Rattle.figures.proofs.Searched.{searched};
ghost use Rattle.sums.specs.Searching.{Searching, Inside, env, passes_at, fits_order};
ghost use Rattle.sums.specs.Seen.{readings_at};

use crate::priced::Priced;
use crate::site::Site;
use algebra::Algebra;
use pedigree::SLOTS;
use readings::model::Model;

impl<M: Model> Site<'_, M> {
    // Whether the reading of a person fits the alleles set so far, where the slot set last is one of its two.
    fn person_fits(&self, person: usize, slot: usize, alleles: &[Option<u8>; SLOTS]) -> bool
        requires { person < self.now.held.now.persons }
        ensures { result ≡ passes_at self.now.held.now (M.fitting self.now.model.now self.now.locus) alleles.now slot person }
    {
        let (maternal, paternal) = self.held.pairs[person];
        if maternal != slot && paternal != slot {
            return true;
        }
        match (alleles[maternal], alleles[paternal]) {
            (Some(a), Some(b)) => self.model.fits(self.locus, person, a, b),
            _ => true,
        }
    }

    // Whether the readings of all persons fit the alleles set so far, as far as the slot set last bears on them. The persons are gone through by number,
    // which is what the model is asked by; so each pair is known to be a person's, and its slots to be below 64.
    fn admits(&self, slot: usize, alleles: &[Option<u8>; SLOTS]) -> bool
        ensures { result ≡ every (passes_at self.now.held.now (M.fitting self.now.model.now self.now.locus) alleles.now slot) (range_with_len 0 self.now.held.now.persons) }
    {
        (0..self.held.persons).all(|person| self.person_fits(person, slot, alleles))
    }
}

impl<M: Model> Priced<'_, M> {
    // The sum over the alleles of the slots, whatever slots had their alleles set before them. The alleles are told by slot, in memory
    // that takes no heap, and passed by value, so that nothing has to be put back.
    pub(crate) fn search<V: Algebra>(&self, slots: &[usize], alleles: [Option<u8>; SLOTS]) -> V
        requires { (t : ℕ) → In t slots.now → t < 64 }
        ensures { (done : List ℕ) → Searching self.now.site.now.held.now (M.fitting self.now.site.now.model.now self.now.site.now.locus) done slots.now alleles → Inside (done ++ slots.now) (readings_at M.classes M.fitting self.now.site.now) → result ≡ searched V.operations (length self.now.costs.now) (weights V.operations self.now.costs.now) (fits_order (done ++ slots.now) (readings_at M.classes M.fitting self.now.site.now)) slots.now (env alleles) }
    {
        let Some((&slot, rest)) = slots.split_first() else {
            return V::one();
        };
        let mut total = V::zero();
        for (allele, cost) in self.costs.iter().enumerate() {
            let mut more = alleles;
            // An allele is below 16, so the cast loses nothing; a conversion that may fail would want an answer for what cannot be.
            more[slot] = Some(allele as u8);
            if self.site.admits(slot, &more) {
                let sum: V = self.search(rest, more);
                total = total.sum(V::weight(*cost).product(sum));
            }
        }
        total
    }
}
