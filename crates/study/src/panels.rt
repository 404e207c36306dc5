// The memory of a panel: while it is being entered, and closed.
ghost use Rattle.std.specs.Prelude.{◌≡◌, ◌<◌, ◌≤◌, length};
ghost use Rattle.study.specs.Panels.{codominant_count};

use crate::loci::Locus;

pub mod builder;
pub mod closed;
pub mod so_far;

// A panel has 1 to so many loci.
pub(crate) const LOCI: usize = 8;

// A panel that is being entered, locus by locus: codominant loci first, and dominant ones from the locus on at which they begin.
// There is no heap below the programs and a panel is copied, so its loci stand in an array with their number beside it; `loci` lends those entered.
#[derive(Clone, Copy)]
pub struct PanelBuilder {
    loci: [Locus; LOCI],
    count: usize,
    begun: Option<usize>,
    ghost memory: { length loci ≡ 8 },
    ghost few: { count ≤ 8 },
    ghost first: { codominant_count begun count ≤ count },
}

// A closed panel: it has at least one locus, and changes no more.
#[derive(Clone, Copy)]
pub struct Panel {
    entered: PanelBuilder,
    ghost some: { 0 < entered.count },
}
