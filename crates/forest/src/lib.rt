// The links of the persons laid so far, and the components into which they tie the founder slots. Persons are laid in their order, and can be taken
// back from the last one on.
#![tactic(auto)]

pub mod faults;
pub mod trees;

pub use faults::LayFault;
pub use trees::Forest;
