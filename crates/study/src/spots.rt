// The person and the locus that a reading is of, and where it stands in a table.
ghost use Rattle.std.specs.Prelude.{◌≡◌, ◌-◌, ◌<◌, ◌≤◌};
ghost use Rattle.study.specs.Readings.{place_of};

use crate::panels::LOCI;
use pedigree::PERSONS;

// How many readings a table has.
pub(crate) const PLACES: usize = PERSONS * LOCI;

// A person at a locus.
#[derive(Clone, Copy)]
pub(crate) struct Spot {
    pub(crate) locus: usize,
    pub(crate) person: usize,
    ghost locus_within: { locus < 8 },
    ghost person_within: { person < 64 },
}

impl Spot {
    // Where its reading stands, with 64 persons to a locus.
    pub(crate) fn place(self) -> usize
        ensures value { result ≡ place_of self.locus self.person }
        ensures within { result < 512 }
    {
        PERSONS * self.locus + self.person
    }

    // The same person and locus, with the loci numbered from this one on.
    pub(crate) fn behind(self, first: usize) -> Spot
        requires { first ≤ self.locus }
        ensures locus { result.locus ≡ self.locus - first }
        ensures person { result.person ≡ self.person }
    {
        Spot {
            locus: self.locus - first,
            person: self.person,
        }
    }
}
