// The slots of ids that follow one another, in a vector.
ghost use Rattle.std.specs.Prelude.{◌≡◌, ◌≤◌, ◌<◌, ◌+◌, ◌-◌, ◌*◌, ◌^◌, [], length, max};
ghost use Rattle.pl_byid.specs.Runs.{KnowsNoMore, SetsOne, spare_places, told};

use pl_base::{NoMemory, Slot};
use std::alloc::Global;

// A run has at most twice as many places as there are rows, and twice these.
const SPARE: usize = 512;

/// The slots of the ids from `first` on. A slot 0 says nothing of its id.
#[derive(Debug, Drop)]
pub(crate) struct Run {
    pub(crate) first: u32,
    pub(crate) slots: Vec<Slot>,
}

impl Run {
    pub(crate) fn new(alloc: Global) -> Run
        ensures { result.slots.items ≡ [] }
    {
        Run {
            first: 0,
            slots: Vec::new(alloc),
        }
    }

    /// The slot that is known of an id.
    #[inline(always)]
    pub(crate) fn slot_of(&self, id: u32) -> Option<Slot>
        ensures { result ≡ told self.now id }
    {
        if id < self.first {
            return None;
        }
        match self.slots.get((id - self.first) as usize) {
            Some(slot) if slot.0 != 0 => Some(*slot),
            _ => None,
        }
    }

    /// Makes a place for an id above all others of so many rows. Where the run would get too long,
    /// it begins anew at this id.
    pub(crate) fn reach(&mut self, id: u32, rows: usize) -> Result<(), NoMemory>
        requires { rows < 2 ^ 63 }
        ensures known { KnowsNoMore self.old self.new }
        ensures few { length self.new.slots.items
            ≤ max (length self.old.slots.items) (2 * (rows + spare_places)) }
    {
        self.begin(id, rows);
        let places = id.saturating_sub(self.first) as usize + 1;
        if self.slots.len() < places {
            self.slots.resize(places, Slot(0))?;
        }
        Ok(())
    }

    // The run begins at this id where it is empty or would get too long.
    fn begin(&mut self, id: u32, rows: usize)
        requires { rows < 2 ^ 63 }
        ensures known { KnowsNoMore self.old self.new }
        ensures few { length self.new.slots.items ≤ length self.old.slots.items }
        ensures near { id - self.new.first + 1 ≤ 2 * (rows + spare_places) }
    {
        let behind = id.saturating_sub(self.first) as usize;
        if self.slots.is_empty() || behind / 2 >= rows + SPARE {
            self.slots.clear();
            self.first = id;
        }
    }

    /// This slot is known of the id from then on, if there is a place for it.
    pub(crate) fn set(&mut self, id: u32, slot: Slot)
        ensures { SetsOne id slot self.old self.new }
    {
        if id < self.first {
            return;
        }
        let place = (id - self.first) as usize;
        if place < self.slots.len() {
            self.slots[place] = slot;
        }
    }
}
