// What a closed family tells of itself.
ghost use Rattle.std.specs.Prelude.{◌≡◌, ◌*◌, length, slice_get};
ghost use Rattle.pedigree.specs.Families.{founders_in};
ghost use Rattle.pedigree.specs.Building.{persons_of};

use crate::families::Family;
use crate::persons::Person;

impl Family {
    // Its persons, in the order of their numbers.
    pub fn persons(&self) -> &[Person]
        ensures { result.now ≡ persons_of self.now }
    {
        self.builder.persons()
    }

    // How many persons it has.
    pub fn count(&self) -> usize
        ensures { result ≡ length (persons_of self.now) }
    {
        self.persons().len()
    }

    // How many of them are founders.
    pub fn founders(&self) -> usize
        ensures { result ≡ founders_in (persons_of self.now) }
    {
        self.builder.founders
    }

    // How many founder slots there are: two for each founder.
    pub fn slot_count(&self) -> usize
        ensures { result ≡ 2 * founders_in (persons_of self.now) }
    {
        2 * self.founders()
    }

    // The person of a number, if the family has it.
    pub fn person(&self, number: usize) -> Option<Person>
        ensures { result ≡ slice_get (persons_of self.now) number }
    {
        self.persons().get(number).copied()
    }
}
