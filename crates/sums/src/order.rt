// Slots in the order in which they were gathered.
ghost use Rattle.std.specs.Prelude.{◌≡◌, true, length};
ghost use Rattle.sums.specs.Ordered.{Marked, lawful};

use arrayvec::ArrayVec;
use pedigree::SLOTS;

// Slots below 64, none twice. Each is marked, by its number, so that asking whether a slot is there takes one look however many are.
#[derive(Drop)]
pub(crate) struct Gathered {
    pub(crate) slots: ArrayVec<usize, SLOTS>,
    pub(crate) marks: [bool; SLOTS],
    ghost sized: { length marks ≡ 64 },
    ghost marked: { Marked marks slots.items },
    ghost apart: { lawful slots.items ≡ true },
}
