// The slots that the persons of a family hold under the meiosis bits of a locus.
ghost use Rattle.std.specs.Prelude.{◌≡◌, ◌*◌, ◌-◌, ◌++◌, length, replicate};
ghost use Rattle.pedigree.specs.Building.{persons_of};
ghost use Rattle.pedigree.specs.Families.{founders_in};
ghost use Rattle.pedigree.specs.Slots.{slots_of};
ghost use Rattle.sums.specs.Seen.{told};

use crate::slots::Held;
use pedigree::{Family, Meiosis, PERSONS};

impl Held {
    // The slots that the persons of a family hold under the meiosis bits of a locus.
    pub fn of(family: &Family, bits: &[Meiosis; PERSONS]) -> Held
        ensures told { told result ≡ slots_of (persons_of family.now) bits.now }
        ensures slots { result.slots ≡ 2 * founders_in (persons_of family.now) }
        ensures persons { result.persons ≡ length (persons_of family.now) }
        ensures pairs { result.pairs ≡ slots_of (persons_of family.now) bits.now ++ replicate (64 - length (persons_of family.now)) (0, 0) }
    {
        Held {
            pairs: family.all_slots(bits),
            persons: family.count(),
            slots: family.slot_count(),
        }
    }

    // The pairs of the persons, in order.
    pub fn pairs(&self) -> &[(usize, usize)]
        ensures { result.now ≡ told self.now }
    {
        &self.pairs[..self.persons]
    }
}
