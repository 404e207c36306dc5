// The founder slots of each person of a closed family, under the meiosis bits of a locus.
ghost use Rattle.std.specs.Prelude.{◌≡◌, ◌-◌, ◌*◌, ◌<◌, ◌++◌, length, take, replicate, IsTrue, slice_get};
ghost use Rattle.pedigree.specs.Families.{founders_in, parents_below};
ghost use Rattle.pedigree.specs.Building.{persons_of};
ghost use Rattle.pedigree.specs.Slots.{taken, held_by, slots_of, Descent, SlotsBelow, DescentStands, DescentSettled};

use crate::families::{Family, PERSONS};
use crate::persons::{Meiosis, Person};

// The slot that a side holds of that parent's two: the maternal one at bit 0, the paternal one at bit 1.
fn inherited(bit: bool, parent: (usize, usize)) -> usize
    ensures { result ≡ taken bit parent }
{
    if bit { parent.1 } else { parent.0 }
}

// The two slots of a person behind so many founders, from its bits and the slots of the persons before it. A parent is named by its number, so its
// slots are looked up by that number.
fn held_by(
    person: Person,
    founders: usize,
    bits: Meiosis,
    before: &[(usize, usize)],
) -> (usize, usize)
    requires few { founders < 64 }
    requires below { IsTrue (parents_below (length before.now) person) }
    ensures { result ≡ held_by founders bits before.now person }
{
    match person {
        Person::Founder => (2 * founders, 2 * founders + 1),
        Person::Child { mother, father } => (
            inherited(bits.maternal, before[mother]),
            inherited(bits.paternal, before[father]),
        ),
    }
}

// The bits settle the slots of every person: exactly one telling keeps the law of descent. The answer is 0, as its last clause promises: the theorem is in
// the others.
pub fn descent_is_settled() -> u8
    ensures stands { DescentStands }
    ensures settled { DescentSettled }
    ensures value { result ≡ 0 }
{
    0
}

impl Family {
    // The two slots of every person, maternal first; (0, 0) past the last, since the answer takes no heap and has a fixed size.
    pub fn all_slots(&self, bits: &[Meiosis; PERSONS]) -> [(usize, usize); PERSONS]
        ensures value { result ≡ slots_of (persons_of self.now) bits.now ++ replicate (64 - length (persons_of self.now)) (0, 0) }
        ensures descent { Descent (persons_of self.now) bits.now (take (length (persons_of self.now)) result) }
        ensures bound { SlotsBelow (2 * founders_in (persons_of self.now)) (take (length (persons_of self.now)) result) }
    {
        let mut slots = [(0, 0); PERSONS];
        let mut founders = 0;
        // A person's number tells which slots stand before its own, and its bits.
        for (number, &person) in self.persons().iter().enumerate() {
            slots[number] = held_by(person, founders, bits[number], &slots[..number]);
            if person == Person::Founder {
                founders += 1;
            }
        }
        slots
    }

    // The two slots of a person, maternal first, if the family has it.
    pub fn slots(&self, bits: &[Meiosis; PERSONS], person: usize) -> Option<(usize, usize)>
        ensures { result ≡ slice_get (slots_of (persons_of self.now) bits.now) person }
    {
        // Of a person that the family lacks nothing is worked out.
        if person >= self.count() {
            return None;
        }
        let all = self.all_slots(bits);
        Some(all[person])
    }
}
