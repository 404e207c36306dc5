// What a forest tells: the persons laid and their links, the roots of slots, the number of components.
ghost use Rattle.std.specs.Prelude.{◌≡◌, ℕ, ◌≤◌, length, take, None, slice_index_or};
ghost use Rattle.figures.specs.Graph.{Chain, Parts};
ghost use Rattle.forest.specs.Entries.{Tells};
ghost use Rattle.forest.specs.Laid.{laid, links_of};

use crate::trees::{Forest, Tie};
use pedigree::SLOTS;

impl Forest {
    // The ties of the persons laid, in their order.
    fn laid(&self) -> &[Option<Tie>]
        ensures { result.now ≡ take self.now.count self.now.ties }
    {
        &self.ties[..self.count]
    }

    // How many persons are laid.
    pub fn persons(&self) -> usize
        ensures { result ≡ length (laid self.now) }
    {
        self.laid().len()
    }

    // The link of a person; none where it laid none, and where it is not laid.
    pub fn link(&self, person: usize) -> Option<(usize, usize)>
        ensures { result ≡ slice_index_or (laid self.now) person None }
    {
        self.laid().get(person)?.map(|tie| tie.slots)
    }

    // The parent of a slot. A slot past the last is its own.
    fn parent_of(&self, slot: usize) -> usize
        ensures { result ≡ slice_index_or self.now.parent slot slot }
    {
        self.parent.get(slot).copied().unwrap_or(slot)
    }

    // The lowest slot of the component of a slot. A slot past the last is alone.
    pub fn root(&self, slot: usize) -> usize
        ensures joined { Chain (links_of self.now) slot result }
        ensures lowest { (t : ℕ) → Chain (links_of self.now) slot t → result ≤ t }
        ensures same { Tells (links_of self.now) slot result }
    {
        // A walk from parent to parent: there is nothing to go over and nothing to count.
        let mut root = slot;
        while self.parent_of(root) != root {
            root = self.parent_of(root);
        }
        root
    }

    // Into how many components the slots below a number fall. Slots past the last are alone.
    pub fn parts(&self, slots: usize) -> usize
        ensures { Parts slots (links_of self.now) result }
    {
        let near = slots.min(SLOTS);
        let mut parts = slots - near;
        for (slot, parent) in self.parent[..near].iter().enumerate() {
            if *parent == slot {
                parts += 1;
            }
        }
        parts
    }
}
