ghost use Rattle.std.specs.Prelude.{◌≡◌, ℕ, Bool};
ghost use Rattle.readings.specs.declared.class.Class.{Class};
ghost use Rattle.readings.specs.Model.{Rules};

use crate::class::Class;

// A reading model: what was read of each person at each locus. Every locus, person and allele number gets an answer,
// and an answer leaves the model as it was. The numbers are passed side by side, as the rules name them: a mask asks about one of them and two
// panels change the other, so a struct of them would be taken apart again.
pub trait Model {
    // The class of the reading of a person at a locus.
    ghost classes: { Self → ℕ → ℕ → Class };

    // Whether two alleles fit the reading of a person at a locus.
    ghost fitting: { Self → ℕ → ℕ → ℕ → ℕ → Bool };

    // The proof that the model keeps the rules.
    ghost rules: { (m : Self) → Rules (classes m) (fitting m) };

    fn class(&self, locus: usize, person: usize) -> Class
        ensures { result ≡ classes self.now locus person };

    fn fits(&self, locus: usize, person: usize, a: u8, b: u8) -> bool
        ensures { result ≡ fitting self.now locus person a b };
}
