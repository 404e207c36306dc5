ghost use Rattle.std.specs.Prelude.{◌≡◌, false, slice_index_or};
ghost use Rattle.readings.specs.Combined.{masked_class, masked_fits};
ghost use Rattle.readings.specs.CombinedRules.{masked_rules};

use crate::PERSONS;
use crate::class::Class;
use crate::model::Model as ReadingModel;

// A model with some persons silenced at every locus. The readings of the others are those of the model below.
#[derive(Clone, Copy)]
pub struct Mask<M> {
    pub below: M,
    // One flag for each person there can be: a set in fixed memory, which is copied with the mask.
    pub silenced: [bool; PERSONS],
}

impl<M> Mask<M> {
    // Whether a person is silenced; none is from person 64 on.
    fn hides(&self, person: usize) -> bool
        ensures { result ≡ slice_index_or self.now.silenced person false }
    {
        self.silenced.get(person).copied().unwrap_or(false)
    }
}

impl<M: ReadingModel> ReadingModel for Mask<M> {
    ghost classes = { λ m. masked_class (λ p. slice_index_or m.silenced p false) (M.classes m.below) };

    ghost fitting = { λ m. masked_fits (λ p. slice_index_or m.silenced p false) (M.fitting m.below) };

    ghost rules = { λ m. masked_rules (λ p. slice_index_or m.silenced p false) (M.classes m.below) (M.fitting m.below) (M.rules m.below) };

    fn class(&self, locus: usize, person: usize) -> Class {
        if self.hides(person) {
            Class::Silent
        } else {
            self.below.class(locus, person)
        }
    }

    fn fits(&self, locus: usize, person: usize, a: u8, b: u8) -> bool {
        self.hides(person) || self.below.fits(locus, person, a, b)
    }
}
