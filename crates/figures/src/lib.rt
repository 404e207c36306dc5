// The rules of the founder-allele sums, and the theorems about them. Each function here states one theorem by its contract. Its answer
// is 0, as the last clause promises.
#![tactic(auto)]

ghost use Rattle.std.specs.Prelude.{◌≡◌};
ghost use Rattle.figures.specs.CheckFamilies.{RowsHold};
ghost use Rattle.figures.specs.Statements.{Listed, FiguresCarried, ExcessAdded, PartsSettled, FiguresFactored, ComponentsStand, TwoAtMost};

use algebra::Algebra;

// The assignments listed are exactly the lists of n alleles below k, and none is listed twice.
pub fn assignments_are_listed() -> u8
    ensures holds { Listed }
    ensures value { result ≡ 0 }
{
    0
}

// A map that carries one algebra to another carries the figure of every locus.
pub fn figures_are_carried<V: Algebra, W: Algebra>() -> u8
    ensures holds { FiguresCarried V.operations W.operations }
    ensures value { result ≡ 0 }
{
    0
}

// Silencing persons adds to a figure exactly the excess.
pub fn silencing_adds_the_excess<V: Algebra>() -> u8
    ensures holds { ExcessAdded V.operations }
    ensures value { result ≡ 0 }
{
    0
}

// The slots of a locus fall into one number of components.
pub fn parts_are_settled() -> u8
    ensures holds { PartsSettled }
    ensures value { result ≡ 0 }
{
    0
}

// The figures of the check families are those of the rules.
pub fn check_families_hold() -> u8
    ensures holds { RowsHold }
    ensures value { result ≡ 0 }
{
    0
}

// The figure of a locus is the product of the sums of its components, and every locus has its components.
pub fn figures_are_factored<V: Algebra>() -> u8
    ensures holds { FiguresFactored V.operations }
    ensures components { ComponentsStand }
    ensures value { result ≡ 0 }
{
    0
}

// A component that has a link and only named readings has at most two fitting assignments.
pub fn named_components_have_two_at_most() -> u8
    ensures holds { TwoAtMost }
    ensures value { result ≡ 0 }
{
    0
}
