// Readings: what is known of a person's genotype at a locus, and the models that answer for it.
#![tactic(auto)]

pub mod class;
pub mod codominant;
pub mod dominant;
pub mod mask;
pub mod model;
mod table;
pub mod two_panels;

// From this locus on every reading is silent.
const LOCI: usize = 8;

// From this person on every reading is silent.
const PERSONS: usize = 64;
