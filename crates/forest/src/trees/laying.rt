// Laying persons, and taking them back.
ghost use Rattle.std.specs.Prelude.{◌≡◌, ◌-◌, ◌<◌, [], ◌∷◌, ◌++◌, length, take, Some, None, MatchResult};
ghost use Rattle.forest.specs.Laid.{laid, lay_answer, pass_answer};

use crate::faults::LayFault;
use crate::trees::{Forest, Tie};
use pedigree::{PERSONS, SLOTS};
use std::array;

impl Forest {
    // Nobody is laid, and every slot is alone.
    pub fn new() -> Forest
        ensures { laid result ≡ [] }
    {
        Forest {
            parent: array::from_fn(|slot| slot),
            ties: [None; PERSONS],
            count: 0,
        }
    }

    // Lays one more person, who links two slots, told maternal first. A 65th person is refused, and then a slot above 63; a refusal changes nothing.
    pub fn lay(&mut self, slots: (usize, usize)) -> Result<(), LayFault>
        ensures answer { result ≡ lay_answer (laid self.old) slots }
        ensures after { MatchResult result (λ _. laid self.new ≡ laid self.old ++ Some slots ∷ []) (λ _. self.new ≡ self.old) }
    {
        let person = self.count;
        if person >= PERSONS {
            return Err(LayFault::TooManyPersons);
        }
        if slots.0 >= SLOTS || slots.1 >= SLOTS {
            return Err(LayFault::SlotLacking);
        }
        let maternal = self.root(slots.0);
        let paternal = self.root(slots.1);
        let high = maternal.max(paternal);
        let low = maternal.min(paternal);
        self.parent[high] = low;
        self.ties[person] = Some(Tie { slots, hung: high });
        self.count = person + 1;
        Ok(())
    }

    // Lays one more person, who links nothing. A 65th person is refused, and changes nothing.
    pub fn pass(&mut self) -> Result<(), LayFault>
        ensures answer { result ≡ pass_answer (laid self.old) }
        ensures after { MatchResult result (λ _. laid self.new ≡ laid self.old ++ None ∷ []) (λ _. self.new ≡ self.old) }
    {
        // The test of `lay` again: a function for it, with its contract, would be longer than the two tests.
        if self.count >= PERSONS {
            return Err(LayFault::TooManyPersons);
        }
        self.ties[self.count] = None;
        self.count += 1;
        Ok(())
    }

    // Takes the last person back: the root that it hung is a root again.
    fn take_back(&mut self)
        requires { 0 < length (laid self.old) }
        ensures { laid self.new ≡ take (length (laid self.old) - 1) (laid self.old) }
    {
        let last = self.count - 1;
        if let Some(tie) = self.ties[last] {
            self.parent[tie.hung] = tie.hung;
        }
        self.count = last;
    }

    // Takes the persons from this one on back. A person that is not laid changes nothing.
    pub fn back_to(&mut self, person: usize)
        ensures { laid self.new ≡ take person (laid self.old) }
    {
        for _ in person..self.persons() {
            self.take_back();
        }
    }
}
