// Commutative semirings with weights: what founder alleles are summed in. Truth, count, least cost, and best cost with its number.
#![tactic(auto)]

mod best;
mod count;
mod least;
mod maps;
mod printed;
mod semiring;
mod truth;
mod values;

pub use semiring::Algebra;
pub use values::{Best, CAP, Count, Least, Truth};
