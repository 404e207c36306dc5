// Entering a family, person by person, and closing it.
ghost use Rattle.std.specs.Prelude.{◌≡◌, ◌<◌, ◌≤◌, [], ◌∷◌, ◌++◌, MatchResult};
ghost use Rattle.pedigree.specs.declared.persons.Person.TheVariants.{Founder, Child};
ghost use Rattle.pedigree.specs.Families.{Lawful};
ghost use Rattle.pedigree.specs.Building.{entered, founder_answer, child_answer, Closed};

use crate::families::{FOUNDERS, Family, FamilyBuilder, PERSONS};
use crate::faults::FamilyFault;
use crate::persons::Person;

impl FamilyBuilder {
    // A family without a person so far.
    pub fn new() -> FamilyBuilder
        ensures { entered result ≡ [] }
    {
        FamilyBuilder {
            persons: [Person::Founder; PERSONS],
            count: 0,
            founders: 0,
        }
    }

    // The persons entered so far, in the order of their numbers.
    pub(crate) fn persons(&self) -> &[Person]
        ensures { result.now ≡ entered self.now }
    {
        &self.persons[..self.count]
    }

    // The number of the next person, if there is room for one.
    fn next_number(&self) -> Result<usize, FamilyFault>
        ensures { MatchResult result (λ number. (number ≡ self.now.count) × (number < 64)) (λ fault. (64 ≤ self.now.count) × (fault ≡ FamilyFault.TooManyPersons self.now.count)) }
    {
        if self.count >= PERSONS {
            return Err(FamilyFault::TooManyPersons(self.count));
        }
        Ok(self.count)
    }

    // Enters a founder, and answers its number.
    pub fn founder(&mut self) -> Result<usize, FamilyFault>
        ensures answer { result ≡ founder_answer (entered self.old) }
        ensures after { MatchResult result (λ _. entered self.new ≡ entered self.old ++ Founder ∷ []) (λ _. self.new ≡ self.old) }
    {
        let number = self.next_number()?;
        if self.founders >= FOUNDERS {
            return Err(FamilyFault::TooManyFounders(number));
        }
        self.persons[number] = Person::Founder;
        self.count += 1;
        self.founders += 1;
        Ok(number)
    }

    // Enters a child of two persons entered before, and answers its number.
    pub fn child(&mut self, mother: usize, father: usize) -> Result<usize, FamilyFault>
        ensures answer { result ≡ child_answer (entered self.old) mother father }
        ensures after { MatchResult result (λ _. entered self.new ≡ entered self.old ++ Child mother father ∷ []) (λ _. self.new ≡ self.old) }
    {
        let number = self.next_number()?;
        if mother >= number || father >= number {
            return Err(FamilyFault::ParentNotBelow(number));
        }
        self.persons[number] = Person::Child { mother, father };
        self.count += 1;
        Ok(number)
    }

    // The family with exactly the persons entered so far. The builder stays as it is.
    pub fn close(&self) -> Result<Family, FamilyFault>
        ensures answer { Closed (entered self.now) result }
        ensures lawful { Lawful (entered self.now) }
    {
        if self.count == 0 {
            return Err(FamilyFault::NoPerson);
        }
        Ok(Family { builder: *self })
    }
}
