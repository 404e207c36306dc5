// Why a figure is refused.
ghost use Rattle.std.specs.Prelude.{◌++◌, Some, codes};
ghost use Rattle.std.specs.Fmt.{decimal};

use std::error::Error;
use std::fmt;

// The locus is wide: a component has a reading of class several and more than 65,536 assignments.
#[derive(Clone, Copy, PartialEq, Eq, Debug)]
pub struct WideLocus {
    pub locus: usize,
}

impl fmt::Display for WideLocus {
    ghost output = { λ wide. Some (codes "locus " ++ decimal wide.locus ++ codes " is wide") };

    fn fmt<W: fmt::Write>(&self, f: &mut fmt::Formatter<W>) -> fmt::Result {
        let locus = self.locus;
        write!(f, "locus {locus} is wide")
    }
}

impl Error for WideLocus {}
