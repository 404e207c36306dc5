// The algebra of truth: whether anything fits.
ghost use Rattle.algebra.specs.Truth.{truth_ops};
ghost use Rattle.algebra.specs.TruthLaws.{truth_laws};

use crate::semiring::Algebra;
use crate::values::Truth;

impl Algebra for Truth {
    ghost operations = { truth_ops };

    ghost laws = { truth_laws };

    fn zero() -> Truth {
        Truth { yes: false }
    }

    fn one() -> Truth {
        Truth { yes: true }
    }

    fn sum(self, other: Truth) -> Truth {
        Truth {
            yes: self.yes || other.yes,
        }
    }

    fn product(self, other: Truth) -> Truth {
        Truth {
            yes: self.yes && other.yes,
        }
    }

    fn weight(_cost: u16) -> Truth {
        Self::one()
    }
}
