// The panel of a study and its reading tables: loci with the costs of their alleles, and the bytes read of each person at each locus.
#![tactic(auto)]

pub mod faults;
mod loci;
pub mod panels;
mod spots;
pub mod tables;

pub use faults::ReadingsFault;
pub use loci::Kind;
pub use panels::{Panel, PanelBuilder};
pub use tables::Tables;
