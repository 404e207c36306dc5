// How the figures of a locus are printed.
use algebra::{Best, Count, Least};
use std::fmt;

// The figures of a locus.
#[derive(Clone, Copy)]
pub struct Figures {
    pub count: Count,
    pub least: Least,
    pub best: Best,
    pub parts: usize,
}

impl fmt::Display for Figures {
    fn fmt<W: fmt::Write>(&self, f: &mut fmt::Formatter<W>) -> fmt::Result {
        write!(
            f,
            "{}; {}; {}; {}",
            self.count, self.least, self.best, self.parts
        )
    }
}
