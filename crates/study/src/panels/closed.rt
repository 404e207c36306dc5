// What a closed panel tells of itself.
ghost use Rattle.std.specs.Prelude.{◌≡◌, ◌<◌, ◌≤◌, [], length, MatchOption, slice_index_or};
ghost use Rattle.study.specs.Building.{loci_of, codominants_of, alleles_answer};

use crate::panels::Panel;

// A closed panel tells of its loci what its builder tells: the first three hand on to it, so that who holds a panel needs no builder.
impl Panel {
    // How many loci it has.
    pub fn count(&self) -> usize
        ensures { result ≡ length (loci_of self.now) }
    {
        self.entered.count()
    }

    // How many of them are codominant; they are the first.
    pub fn codominants(&self) -> usize
        ensures { result ≡ codominants_of self.now }
    {
        self.entered.codominants()
    }

    // How many alleles a locus has, if the panel has it.
    pub fn alleles(&self, locus: usize) -> Option<usize>
        ensures { result ≡ alleles_answer (loci_of self.now) locus }
    {
        self.entered.alleles(locus)
    }

    // The costs of the alleles of a locus, if the panel has it.
    pub fn costs(&self, locus: usize) -> Option<&[u16]>
        ensures { MatchOption result (length (loci_of self.now) ≤ locus) (λ costs. (locus < length (loci_of self.now)) × (costs.now ≡ slice_index_or (loci_of self.now) locus [])) }
    {
        self.entered.loci().get(locus).map(|found| found.costs())
    }
}
