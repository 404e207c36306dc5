// A locus with the costs of its alleles.
ghost use Rattle.std.specs.Prelude.{◌≤◌, length};

use crate::site::Site;

// What is summed over: a locus has at most 16 alleles, and one cost for each.
#[derive(Drop)]
pub(crate) struct Priced<'a, M> {
    pub(crate) site: &'a Site<'a, M>,
    pub(crate) costs: &'a [u16],
    ghost few: { length costs.now ≤ 16 },
}
