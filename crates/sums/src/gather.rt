// The slots of a component, in the order in which links reach them from the first.
ghost use Rattle.std.specs.Prelude.{◌≡◌, ℕ, ◌<◌, ◌≤◌, [], ◌∷◌, ◌||◌, length};
ghost use Rattle.figures.specs.Graph.{Component, links, has};
ghost use Rattle.figures.specs.Locus.{loud};
ghost use Rattle.sums.specs.Gathering.{items, follow, reached};
ghost use Rattle.sums.specs.Seen.{readings_at};
ghost use Rattle.sums.specs.Ordered.{pushed};

use crate::order::Gathered;
use crate::site::Site;
use arrayvec::ArrayVec;
use pedigree::SLOTS;
use readings::class::Class;
use readings::model::Model;

impl Gathered {
    // Nothing gathered.
    pub(crate) fn new() -> Gathered
        ensures { items result ≡ [] }
    {
        Gathered {
            slots: ArrayVec::new(),
            marks: [false; SLOTS],
        }
    }

    // The slots gathered, in their order.
    pub(crate) fn slots(&self) -> &[usize]
        ensures value { result.now ≡ items self.now }
        ensures few { length result.now ≤ 64 }
    {
        self.slots.as_slice()
    }

    // Whether a slot is there.
    pub(crate) fn contains(&self, slot: usize) -> bool
        ensures { result ≡ has (items self.now) slot }
    {
        self.marks.get(slot).copied().unwrap_or(false)
    }

    // One slot more, where it is a slot and not there yet.
    pub(crate) fn push(&mut self, slot: usize)
        ensures { items self.new ≡ pushed (items self.old) slot }
    {
        if slot < SLOTS && !self.contains(slot) {
            self.slots.push(slot);
            self.marks[slot] = true;
        }
    }

    // All slots of others gathered.
    pub(crate) fn push_all(&mut self, others: &Gathered)
        ensures { (t : ℕ) → has (items self.new) t ≡ (has (items self.old) t || has (items others.now) t) }
    {
        for slot in others.slots() {
            self.push(*slot);
        }
    }

    // Gathers the other end of a link that has the slot at one end.
    fn follow(&mut self, ends: (usize, usize), slot: usize)
        ensures { items self.new ≡ follow slot (items self.old) ends }
    {
        if ends.0 == slot {
            self.push(ends.1);
        }
        if ends.1 == slot {
            self.push(ends.0);
        }
    }
}

// Whether a reading says something.
pub fn is_loud(class: Class) -> bool
    ensures { result ≡ loud class }
{
    !matches!(class, Class::Silent)
}

impl<M: Model> Site<'_, M> {
    // Gathers all that a link joins to the slot.
    fn reach(&self, slot: usize, found: &mut Gathered)
        ensures { items found.new ≡ reached (links (readings_at M.classes M.fitting self.now)) slot (items found.old) }
    {
        for (person, ends) in self.held.pairs().iter().enumerate() {
            if is_loud(self.model.class(self.locus, person)) {
                found.follow(*ends, slot);
            }
        }
    }

    // The component of a slot, put where the caller has room for one: it is gathered here and copied there once, where an answer would be copied twice.
    pub(crate) fn gather(&self, slot: usize, component: &mut Gathered)
        requires { slot < self.now.held.now.slots }
        ensures { Component self.now.held.now.slots (links (readings_at M.classes M.fitting self.now)) slot (items component.new) }
    {
        let mut found = Gathered::new();
        found.push(slot);
        // The list grows while it is gone through, so the loop is over its places.
        for next in 0..SLOTS {
            let Some(&from) = found.slots().get(next) else {
                break;
            };
            self.reach(from, &mut found);
        }
        *component = found;
    }
}
