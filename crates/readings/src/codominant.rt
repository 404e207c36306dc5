ghost use Rattle.readings.specs.Tables.{byte_at, codominant_class, codominant_fits};
ghost use Rattle.readings.specs.CodominantRules.{codominant_rules};

use crate::class::Class;
use crate::model::Model as ReadingModel;
use crate::table::byte_at;
use genotype::{code, pair};

// Codominant readings: a person's byte is the code of its two alleles, or a number that is no code if nothing was read.
#[derive(Clone, Copy)]
pub struct Codominant<'a> {
    pub table: &'a [u8],
}

impl ReadingModel for Codominant<'_> {
    ghost classes = { λ m locus person. codominant_class (byte_at m.table.now locus person) };

    ghost fitting = { λ m locus person. codominant_fits (byte_at m.table.now locus person) };

    ghost rules = { λ m. codominant_rules m.table.now };

    fn class(&self, locus: usize, person: usize) -> Class {
        match pair(byte_at(self.table, locus, person)) {
            Some((a, b)) => Class::Named(a, b),
            None => Class::Silent,
        }
    }

    fn fits(&self, locus: usize, person: usize, a: u8, b: u8) -> bool {
        let byte = byte_at(self.table, locus, person);
        pair(byte).is_none() || code(a, b) == byte
    }
}
