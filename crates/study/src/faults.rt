// Why a panel or a reading is refused.
ghost use Rattle.std.specs.Prelude.{◌≡◌};
ghost use Rattle.study.specs.Faults.{told};

use refusal::{Layer, Refusal};

// A refusal of the readings layer, with its place where it has one.
#[derive(Clone, Copy, PartialEq, Eq, Debug)]
pub enum ReadingsFault {
    // A locus that the panel lacks, by its number.
    LocusLacking(usize),
    // A panel closed without a locus.
    NoLocus,
    // A ninth locus, by the number that it would have had.
    NinthLocus(usize),
    // A locus, by the number that it would have had, with no allele or more than 16.
    Alleles(usize),
    // A locus, by the number that it would have had, with fewer or more costs than alleles.
    CostCount(usize),
    // A locus, by the number that it would have had, with a cost above 65,535.
    Cost(usize),
    // A person that the family lacks, by its number.
    PersonLacking(usize),
    // A number that the locus lacks, by the place of the reading: 64 times the locus and the person.
    NumberLacking(usize),
    // A second reading of a person at a locus, by the place of the reading.
    SecondReading(usize),
}

impl From<ReadingsFault> for Refusal {
    ghost from_gives = { λ f r. r ≡ told f };

    // The number and the place of the fault, in the readings layer.
    fn from(fault: ReadingsFault) -> Refusal {
        let (number, place) = match fault {
            ReadingsFault::LocusLacking(locus) => (4, locus),
            ReadingsFault::NoLocus => (5, 0),
            ReadingsFault::NinthLocus(locus)
            | ReadingsFault::Alleles(locus)
            | ReadingsFault::CostCount(locus)
            | ReadingsFault::Cost(locus) => (5, locus),
            ReadingsFault::PersonLacking(person) => (6, person),
            ReadingsFault::NumberLacking(place) | ReadingsFault::SecondReading(place) => (7, place),
        };
        Refusal {
            number,
            place,
            layer: Layer::Readings,
        }
    }
}
