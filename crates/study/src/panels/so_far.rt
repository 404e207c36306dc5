// What a panel tells of itself while it is being entered.
ghost use Rattle.std.specs.Prelude.{◌≡◌, ◌<◌, ◌≤◌, length, take, IfSome};
ghost use Rattle.study.specs.Building.{loci_so_far, codominants_so_far, alleles_answer};

use crate::loci::Locus;
use crate::panels::PanelBuilder;

impl PanelBuilder {
    // The loci entered so far.
    pub(crate) fn loci(&self) -> &[Locus]
        ensures { result.now ≡ take self.now.count self.now.loci }
    {
        &self.loci[..self.count]
    }

    // How many loci there are so far.
    pub fn count(&self) -> usize
        ensures { result ≡ length (loci_so_far self.now) }
    {
        self.loci().len()
    }

    // How many of them are codominant; they are the first.
    pub fn codominants(&self) -> usize
        ensures { result ≡ codominants_so_far self.now }
    {
        self.begun.unwrap_or(self.count)
    }

    // How many alleles a locus has, if the panel has it.
    pub fn alleles(&self, locus: usize) -> Option<usize>
        ensures value { result ≡ alleles_answer (loci_so_far self.now) locus }
        ensures within { IfSome result (λ k. (locus < 8) × (k ≤ 16)) }
    {
        self.loci().get(locus).map(|found| found.costs().len())
    }
}
