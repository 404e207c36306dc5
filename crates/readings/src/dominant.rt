ghost use Rattle.readings.specs.Tables.{byte_at, dominant_class, dominant_fits};
ghost use Rattle.readings.specs.DominantRules.{dominant_rules};

use crate::class::Class;
use crate::model::Model as ReadingModel;
use crate::table::byte_at;

// Dominant readings: a person's byte says whether allele 0 shows (1) or hides (0); any other byte says nothing.
#[derive(Clone, Copy)]
pub struct Dominant<'a> {
    pub table: &'a [u8],
}

// The bytes are published numbers, told apart by name where they are asked for. An enum of the two would take one more match to make it from a byte,
// and each question would match again.
const HIDES: u8 = 0;

const SHOWS: u8 = 1;

impl ReadingModel for Dominant<'_> {
    ghost classes = { λ m locus person. dominant_class (byte_at m.table.now locus person) };

    ghost fitting = { λ m locus person. dominant_fits (byte_at m.table.now locus person) };

    ghost rules = { λ m. dominant_rules m.table.now };

    fn class(&self, locus: usize, person: usize) -> Class {
        match byte_at(self.table, locus, person) {
            HIDES | SHOWS => Class::Several,
            _ => Class::Silent,
        }
    }

    fn fits(&self, locus: usize, person: usize, a: u8, b: u8) -> bool {
        match byte_at(self.table, locus, person) {
            SHOWS => a == 0 || b == 0,
            HIDES => a != 0 && b != 0,
            _ => true,
        }
    }
}
