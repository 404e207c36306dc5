// The algebra of counts: how many fit.
ghost use Rattle.algebra.specs.Count.{count_ops};
ghost use Rattle.algebra.specs.CountLaws.{count_laws};

use crate::semiring::Algebra;
use crate::values::Count;

impl Algebra for Count {
    ghost operations = { count_ops };

    ghost laws = { count_laws };

    fn zero() -> Count {
        Count { number: 0 }
    }

    fn one() -> Count {
        Count { number: 1 }
    }

    fn sum(self, other: Count) -> Count {
        Count {
            number: self.number.saturating_add(other.number),
        }
    }

    fn product(self, other: Count) -> Count {
        Count {
            number: self.number.saturating_mul(other.number),
        }
    }

    fn weight(_cost: u16) -> Count {
        Self::one()
    }
}
