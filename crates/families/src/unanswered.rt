// Why a case has no figures.
use pedigree::FamilyFault;
use refusal::Refusal;
use std::fmt;
use sums::WideLocus;

// The family was refused, or the locus is wide.
#[derive(Clone, Copy, PartialEq, Eq, Debug)]
pub enum Unanswered {
    Refused(Refusal),
    Wide(WideLocus),
}

impl From<FamilyFault> for Unanswered {
    fn from(fault: FamilyFault) -> Unanswered {
        Unanswered::Refused(fault.into())
    }
}

impl From<WideLocus> for Unanswered {
    fn from(wide: WideLocus) -> Unanswered {
        Unanswered::Wide(wide)
    }
}

impl fmt::Display for Unanswered {
    fn fmt<W: fmt::Write>(&self, f: &mut fmt::Formatter<W>) -> fmt::Result {
        match *self {
            Unanswered::Refused(refusal) => write!(f, "refused {}", refusal.number),
            Unanswered::Wide(wide) => write!(f, "{wide}"),
        }
    }
}
