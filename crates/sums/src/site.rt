// A locus of a family as a reading model sees it.
use crate::slots::Held;

// The slots that the persons hold, the model of the readings, and the number of the locus.
#[derive_where(Clone, Copy)]
pub struct Site<'a, M> {
    pub held: &'a Held,
    pub model: &'a M,
    pub locus: usize,
}
