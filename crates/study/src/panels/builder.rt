// Entering a panel, locus by locus, and closing it.
ghost use Rattle.std.specs.Prelude.{◌≡◌, [], ◌∷◌, ◌++◌, length, None, MatchResult};
ghost use Rattle.study.specs.Panels.{first_begun, LawfulPanel};
ghost use Rattle.study.specs.Building.{loci_so_far, begun_at, codominants_so_far, locus_answer, Closed};

use crate::faults::ReadingsFault;
use crate::loci::{ALLELES, Locus};
use crate::panels::{LOCI, Panel, PanelBuilder};

impl PanelBuilder {
    // A panel without a locus so far.
    pub fn new() -> PanelBuilder
        ensures loci { loci_so_far result ≡ [] }
        ensures begun { begun_at result ≡ None }
    {
        PanelBuilder {
            loci: [Locus::BLANK; LOCI],
            count: 0,
            begun: None,
        }
    }

    // Enters a locus with so many alleles and the costs of each, and answers its number.
    pub fn locus(&mut self, alleles: usize, costs: &[u32]) -> Result<usize, ReadingsFault>
        ensures answer { result ≡ locus_answer (loci_so_far self.old) alleles costs.now }
        ensures after { MatchResult result (λ _. (loci_so_far self.new ≡ loci_so_far self.old ++ costs.now ∷ []) × (begun_at self.new ≡ begun_at self.old)) (λ _. self.new ≡ self.old) }
    {
        let number = self.count;
        if number >= LOCI {
            return Err(ReadingsFault::NinthLocus(number));
        }
        if !(1..=ALLELES).contains(&alleles) {
            return Err(ReadingsFault::Alleles(number));
        }
        if costs.len() != alleles {
            return Err(ReadingsFault::CostCount(number));
        }
        self.loci[number] = Locus::of(costs).ok_or(ReadingsFault::Cost(number))?;
        self.count += 1;
        Ok(number)
    }

    // From here on every locus entered is dominant. A second call changes nothing.
    pub fn begin_dominant(&mut self)
        ensures loci { loci_so_far self.new ≡ loci_so_far self.old }
        ensures begun { begun_at self.new ≡ first_begun (begun_at self.old) (length (loci_so_far self.old)) }
    {
        self.begun.get_or_insert(self.count);
    }

    // The panel with exactly the loci entered so far. The builder stays as it is.
    pub fn close(&self) -> Result<Panel, ReadingsFault>
        ensures answer { Closed (loci_so_far self.now) (codominants_so_far self.now) result }
        ensures lawful { LawfulPanel (loci_so_far self.now) (codominants_so_far self.now) }
    {
        if self.count == 0 {
            return Err(ReadingsFault::NoLocus);
        }
        Ok(Panel { entered: *self })
    }
}
