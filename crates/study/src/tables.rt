// The reading tables of a study, and entering readings into them.
ghost use Rattle.std.specs.Prelude.{◌≡◌, MatchResult, OnOk};
ghost use Rattle.pedigree.specs.Building.{persons_of};
ghost use Rattle.study.specs.Building.{loci_so_far, codominants_so_far};
ghost use Rattle.study.specs.Readings.{place_of};
ghost use Rattle.study.specs.Entering.{unread, enter_answer, with_reading, OneReadingMore};

use crate::faults::ReadingsFault;
use crate::loci::{Kind, NOTHING};
use crate::panels::PanelBuilder;
use crate::spots::{PLACES, Spot};
use pedigree::Family;

// The bytes read of all persons, in one table for the codominant loci and one for the dominant ones, and which readings were entered.
// Each table numbers its loci from 0 and has 64 bytes for each; a byte that was not entered is 255.
// The reading models are lent the bytes alone, and 255 may have been entered or not, so what was entered stands beside them.
#[derive(Clone, Copy)]
pub struct Tables {
    codominant: [u8; PLACES],
    dominant: [u8; PLACES],
    entered: [bool; PLACES],
}

impl Tables {
    // Tables without a reading.
    pub fn new() -> Tables
        ensures { result ≡ unread }
    {
        Tables {
            codominant: [NOTHING; PLACES],
            dominant: [NOTHING; PLACES],
            entered: [false; PLACES],
        }
    }

    // Enters what was read of a person at a locus of the panel so far.
    pub fn enter(
        &mut self,
        panel: &PanelBuilder,
        family: &Family,
        locus: usize,
        person: usize,
        number: u32,
    ) -> Result<(), ReadingsFault>
        ensures answer { result ≡ enter_answer (loci_so_far panel.now) (codominants_so_far panel.now) (persons_of family.now) self.old locus person number }
        ensures after { MatchResult result (λ _. self.new ≡ with_reading self.old (codominants_so_far panel.now) locus person number) (λ _. self.new ≡ self.old) }
        ensures more { OnOk result (OneReadingMore self.old self.new (codominants_so_far panel.now) locus person number) }
    {
        let found = panel
            .loci()
            .get(locus)
            .ok_or(ReadingsFault::LocusLacking(locus))?;
        family
            .person(person)
            .ok_or(ReadingsFault::PersonLacking(person))?;
        let spot = Spot { locus, person };
        let place = spot.place();
        let codominants = panel.codominants();
        let byte = found
            .byte_of(Kind::of(locus, codominants), number)
            .ok_or(ReadingsFault::NumberLacking(place))?;
        if self.entered[place] {
            return Err(ReadingsFault::SecondReading(place));
        }
        self.store(codominants, spot, byte);
        Ok(())
    }

    // Writes a byte that was read at a spot, where so many loci are codominant.
    fn store(&mut self, codominants: usize, spot: Spot, byte: u8)
        ensures value { self.new ≡ with_reading self.old codominants spot.locus spot.person byte }
        ensures more { OneReadingMore self.old self.new codominants spot.locus spot.person byte }
    {
        match Kind::of(spot.locus, codominants) {
            Kind::Codominant => self.codominant[spot.place()] = byte,
            Kind::Dominant => self.dominant[spot.behind(codominants).place()] = byte,
        }
        self.entered[spot.place()] = true;
    }

    // The bytes read at codominant loci.
    pub fn codominant(&self) -> &[u8]
        ensures { result.now ≡ self.now.codominant }
    {
        &self.codominant
    }

    // The bytes read at dominant loci.
    pub fn dominant(&self) -> &[u8]
        ensures { result.now ≡ self.now.dominant }
    {
        &self.dominant
    }
}
