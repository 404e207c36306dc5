// Families, their builder, and the founder slots that each person holds under the meiosis bits of a locus.
#![tactic(auto)]

pub mod families;
pub mod faults;
pub mod persons;

pub use families::descent::descent_is_settled;
pub use families::{FOUNDERS, Family, FamilyBuilder, PERSONS, SLOTS};
pub use faults::FamilyFault;
pub use persons::{Meiosis, Person, Side};
