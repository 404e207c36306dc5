// What an algebra is, for the sums over assignments of founder alleles.
ghost use Rattle.std.specs.Prelude.{◌≡◌};
ghost use Rattle.algebra.specs.Semiring.{Ops, Laws};

// A commutative semiring with a weight for each cost. `operations` says what its functions answer, and each implementation owes the laws for all
// its values.
pub trait Algebra: Sized {
    ghost operations: { Ops Self };

    // The sum of nothing.
    fn zero() -> Self
        ensures { result ≡ operations.zero };

    // The product of nothing.
    fn one() -> Self
        ensures { result ≡ operations.one };

    fn sum(self, other: Self) -> Self
        ensures { result ≡ operations.sum self other };

    fn product(self, other: Self) -> Self
        ensures { result ≡ operations.product self other };

    // What an allele of this cost counts for.
    fn weight(cost: u16) -> Self
        ensures { result ≡ operations.weight cost };

    ghost laws: { Laws operations };
}
