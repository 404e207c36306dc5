// The memory of a forest.
ghost use Rattle.forest.specs.Hanging.{Kept, Grown, Undone};

use pedigree::{PERSONS, SLOTS};

pub mod asking;
pub mod laying;

// What a person who links two slots ties: the slots, and the root that the link hung under another.
#[derive(Clone, Copy)]
struct Tie {
    slots: (usize, usize),
    hung: usize,
}

// Trees over the 64 slots, one a component, with the lowest slot of the component as its root. A slot's parent is a lower slot of its component; a root
// is its own parent. Each person laid has a tie, or none if it links nothing.
#[derive(Clone, Copy)]
pub struct Forest {
    // The parent of each slot, by its number: an array of the slots is all the memory that trees over them need.
    parent: [usize; SLOTS],
    // The first `count` are those of the persons laid: an array with a count, since a forest is copied and nothing here is on the heap.
    ties: [Option<Tie>; PERSONS],
    count: usize,
    ghost kept: { Kept ties count },
    ghost grown: { Grown parent ties count },
    ghost undone: { Undone ties count },
}
