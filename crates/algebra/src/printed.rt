// How the values of the algebras are printed.
ghost use Rattle.std.specs.Prelude.{Some};
ghost use Rattle.algebra.specs.Printed.{truth_text, count_text, least_text, best_text};

use crate::values::{Best, CAP, Count, Least, Truth};
use std::fmt;

impl fmt::Display for Truth {
    ghost output = { λ truth. Some (truth_text truth) };

    fn fmt<W: fmt::Write>(&self, f: &mut fmt::Formatter<W>) -> fmt::Result {
        f.write_str(if self.yes { "yes" } else { "no" })
    }
}

// A count that stopped at the cap has a plus behind it.
impl fmt::Display for Count {
    ghost output = { λ count. Some (count_text count) };

    fn fmt<W: fmt::Write>(&self, f: &mut fmt::Formatter<W>) -> fmt::Result {
        if self.number == CAP {
            write!(f, "{}+", self.number)
        } else {
            write!(f, "{}", self.number)
        }
    }
}

// A cost at the cap is none.
impl fmt::Display for Least {
    ghost output = { λ least. Some (least_text least) };

    fn fmt<W: fmt::Write>(&self, f: &mut fmt::Formatter<W>) -> fmt::Result {
        if self.cost == CAP {
            f.write_str("none")
        } else {
            write!(f, "{}", self.cost)
        }
    }
}

// The cost and how many reach it, or none.
impl fmt::Display for Best {
    ghost output = { λ best. Some (best_text best) };

    fn fmt<W: fmt::Write>(&self, f: &mut fmt::Formatter<W>) -> fmt::Result {
        if self.cost == CAP {
            return f.write_str("none");
        }
        let count = Count {
            number: self.number,
        };
        write!(f, "{} {count}", self.cost)
    }
}
