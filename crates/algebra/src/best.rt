// The algebra of the best: the least cost and how many reach it.
ghost use Rattle.algebra.specs.Best.{best_ops};
ghost use Rattle.algebra.specs.BestLaws.{best_laws};

use crate::semiring::Algebra;
use crate::values::{Best, CAP};
use std::cmp::Ordering;

impl Algebra for Best {
    ghost operations = { best_ops };

    ghost laws = { best_laws };

    fn zero() -> Best {
        Best {
            cost: CAP,
            number: 0,
        }
    }

    fn one() -> Best {
        Best { cost: 0, number: 1 }
    }

    fn sum(self, other: Best) -> Best {
        match self.cost.cmp(&other.cost) {
            Ordering::Less => self,
            Ordering::Greater => other,
            Ordering::Equal => Best {
                cost: self.cost,
                number: self.number.saturating_add(other.number),
            },
        }
    }

    fn product(self, other: Best) -> Best {
        let cost = self.cost.saturating_add(other.cost);
        if cost == CAP {
            return Self::zero();
        }
        Best {
            cost,
            number: self.number.saturating_mul(other.number),
        }
    }

    fn weight(cost: u16) -> Best {
        Best {
            cost: u32::from(cost),
            number: 1,
        }
    }
}
