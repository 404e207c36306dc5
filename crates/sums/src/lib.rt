// The figure of a locus, worked out component by component.
#![tactic(auto)]

mod components;
mod gather;
mod holding;
mod locus_figure;
mod order;
mod priced;
mod search;
mod site;
mod slots;

pub use components::{masks_add_the_excess, models_give_sound_loci};
pub use gather::is_loud;
pub use locus_figure::WideLocus;
pub use site::Site;
pub use slots::Held;
