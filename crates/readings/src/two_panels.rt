ghost use Rattle.std.specs.Prelude.{◌≡◌, ◌-◌, ◌<◌, ◌≤◌};
ghost use Rattle.readings.specs.Combined.{panels_class, panels_fits};
ghost use Rattle.readings.specs.CombinedRules.{panels_rules};

use crate::LOCI;
use crate::class::Class;
use crate::model::Model as ReadingModel;

// Two panels behind one another: the loci below `split` are read by the first model under their own numbers, the other loci below 8 by the second,
// which numbers them from 0. From locus 8 on every reading is silent.
#[derive(Clone, Copy)]
pub struct TwoPanels<F, S> {
    pub split: usize,
    pub first: F,
    pub second: S,
}

// The panel that reads a locus, with the number that the locus has there.
#[derive(Clone, Copy)]
enum Panel {
    First(usize),
    Second(usize),
}

impl<F, S> TwoPanels<F, S> {
    // Which panel reads a locus; none from locus 8 on.
    fn panel(&self, locus: usize) -> Option<Panel>
        ensures first { locus < 8 → locus < self.now.split → result ≡ Some (Panel.First locus) }
        ensures second { locus < 8 → self.now.split ≤ locus → result ≡ Some (Panel.Second (locus - self.now.split)) }
        ensures neither { 8 ≤ locus → result ≡ None }
    {
        if locus >= LOCI {
            None
        } else if locus < self.split {
            Some(Panel::First(locus))
        } else {
            Some(Panel::Second(locus - self.split))
        }
    }
}

impl<F: ReadingModel, S: ReadingModel> ReadingModel for TwoPanels<F, S> {
    ghost classes = { λ m. panels_class m.split (F.classes m.first) (S.classes m.second) };

    ghost fitting = { λ m. panels_fits m.split (F.fitting m.first) (S.fitting m.second) };

    ghost rules = { λ m. panels_rules m.split (F.classes m.first) (F.fitting m.first) (S.classes m.second) (S.fitting m.second) (F.rules m.first) (S.rules m.second) };

    fn class(&self, locus: usize, person: usize) -> Class {
        match self.panel(locus) {
            Some(Panel::First(there)) => self.first.class(there, person),
            Some(Panel::Second(there)) => self.second.class(there, person),
            None => Class::Silent,
        }
    }

    fn fits(&self, locus: usize, person: usize, a: u8, b: u8) -> bool {
        match self.panel(locus) {
            Some(Panel::First(there)) => self.first.fits(there, person, a, b),
            Some(Panel::Second(there)) => self.second.fits(there, person, a, b),
            None => true,
        }
    }
}
