// The algebra of least costs.
ghost use Rattle.algebra.specs.Least.{least_ops};
ghost use Rattle.algebra.specs.LeastLaws.{least_laws};

use crate::semiring::Algebra;
use crate::values::{CAP, Least};

impl Algebra for Least {
    ghost operations = { least_ops };

    ghost laws = { least_laws };

    fn zero() -> Least {
        Least { cost: CAP }
    }

    fn one() -> Least {
        Least { cost: 0 }
    }

    fn sum(self, other: Least) -> Least {
        Least {
            cost: self.cost.min(other.cost),
        }
    }

    fn product(self, other: Least) -> Least {
        Least {
            cost: self.cost.saturating_add(other.cost),
        }
    }

    fn weight(cost: u16) -> Least {
        Least {
            cost: u32::from(cost),
        }
    }
}
