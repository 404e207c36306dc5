// The memory of a family: while it is being entered, and closed.
ghost use Rattle.std.specs.Prelude.{◌≡◌, ◌<◌, ◌≤◌, length, take};
ghost use Rattle.pedigree.specs.Families.{founders_in, Lawful};

use crate::persons::Person;

pub mod builder;
pub mod closed;
pub mod descent;

// How many persons a family has at most.
pub const PERSONS: usize = 64;

// How many of them are founders at most.
pub const FOUNDERS: usize = 32;

// How many founder slots there are at most: two for each founder.
pub const SLOTS: usize = 2 * FOUNDERS;

// A family that is being entered, person by person. It is copied and takes no heap, so its persons stand in fixed memory with their count beside them;
// how many of them are founders is kept, and not counted again for each that is entered.
#[derive(Clone, Copy, PartialEq, Eq, Debug)]
pub struct FamilyBuilder {
    persons: [Person; PERSONS],
    count: usize,
    founders: usize,
    ghost memory: { length persons ≡ 64 },
    ghost within: { count ≤ 64 },
    ghost counted: { founders ≡ founders_in (take count persons) },
    ghost lawful: { Lawful (take count persons) },
}

// A closed family: its builder as it was when it was closed, with at least one person. It changes no more.
#[derive(Clone, Copy, PartialEq, Eq, Debug)]
pub struct Family {
    builder: FamilyBuilder,
    ghost some: { 0 < builder.count },
}
