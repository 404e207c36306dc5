// Why a family is refused.
ghost use Rattle.std.specs.Prelude.{◌≡◌};
ghost use Rattle.pedigree.specs.Faults.{told};

use refusal::{Layer, Refusal};

// A refusal of the family layer, with its place where it has one.
#[derive(Clone, Copy, PartialEq, Eq, Debug)]
pub enum FamilyFault {
    // A 65th person, by the number that it would have had.
    TooManyPersons(usize),
    // A 33rd founder, by the number that it would have had.
    TooManyFounders(usize),
    // A child, by its number, with a parent that is not numbered below it.
    ParentNotBelow(usize),
    // A family closed without a person.
    NoPerson,
}

// The number and the place of a fault; its layer is the family layer.
impl From<FamilyFault> for Refusal {
    ghost from_gives = { λ fault refusal. refusal ≡ told fault };

    fn from(fault: FamilyFault) -> Refusal {
        let (number, place) = match fault {
            FamilyFault::TooManyPersons(place) | FamilyFault::TooManyFounders(place) => (1, place),
            FamilyFault::ParentNotBelow(place) => (2, place),
            FamilyFault::NoPerson => (3, 0),
        };
        Refusal {
            number,
            place,
            layer: Layer::Family,
        }
    }
}
