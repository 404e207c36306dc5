// The founder slots that the persons of a family hold at a locus.
ghost use Rattle.sums.specs.Within.{Within};

use pedigree::PERSONS;

// The pair of slots of each person, maternal first; the memory past the last person is of no use.
// The fields are a fixed array and its count, since the type is public and Copy, and there is no heap. `pairs()` lends the pairs of the persons alone.
#[derive(Clone, Copy)]
pub struct Held {
    pub pairs: [(usize, usize); PERSONS],
    pub persons: usize,
    pub slots: usize,
    ghost within: { Within pairs persons slots },
}
