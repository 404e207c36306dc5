// Maps that carry one algebra to another, so that they carry every figure too. They are methods: each is asked for by a name of its own, and a
// clause of it says what it carries.
ghost use Rattle.std.specs.Prelude.{◌≡◌};
ghost use Rattle.algebra.specs.Best.{best_ops};
ghost use Rattle.algebra.specs.Carried.{any_of, least_of};
ghost use Rattle.algebra.specs.Count.{count_ops};
ghost use Rattle.algebra.specs.Least.{least_ops};
ghost use Rattle.algebra.specs.Maps.{Carries};
ghost use Rattle.algebra.specs.Truth.{truth_ops};

use crate::values::{Best, Count, Least, Truth};

impl Count {
    // Whether anything was counted.
    pub fn any(self) -> Truth
        ensures value { result ≡ any_of self }
        ensures carries { Carries count_ops truth_ops any_of }
    {
        Truth {
            yes: self.number > 0,
        }
    }
}

impl Best {
    // The cost without its number.
    pub fn least(self) -> Least
        ensures value { result ≡ least_of self }
        ensures carries { Carries best_ops least_ops least_of }
    {
        Least { cost: self.cost }
    }
}
