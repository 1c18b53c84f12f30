ghost use Rattle.std.specs.Prelude.{◌≡◌, ◌<◌, ◌++◌, ◌∷◌, [], ℕ, length, Some};
ghost use Rattle.std.specs.Prelude.{IfOk, IsSome, OnErr, OnOk};
ghost use Rattle.std.specs.BTreeMap.{insert_entry, is_at};
ghost use Rattle.std.specs.List.{AllByRecursion};
ghost use Rattle.std.specs.Map.{remove_entry};
ghost use Rattle.std.specs.Ordering.{nat_cmp};
ghost use Rattle.pl_base.specs.declared.id.Slot.{Slot as Number};
ghost use Rattle.pl_record.specs.LinkedRows as index;
ghost use Rattle.pl_byid.specs.Runs.{IsRight};

use crate::run::Run;
use pl_base::{NoMemory, Slot};
use pl_record::{id_behind, slot_at};
use std::alloc::Global;
use std::collections::BTreeMap;
use std::marker::Model;

/// The slots of rows by the numbers of their ids.
///
/// Where ids lie close to one another, as those that were given one after another do, a slot is
/// found in one step, and else in as many as a map takes. The memory for that is bounded by how
/// many rows there are or were, whatever their ids are.
#[derive(Debug)]
pub struct SlotIndex {
    // All of them.
    map: BTreeMap<u32, Slot>,
    // What is known of ids besides. Of others the map is asked.
    run: Run,
}

impl Model for SlotIndex {
    ghost use Rattle.pl_byid.specs.Slots.{Slots};
    ghost use Rattle.pl_byid.specs.Runs.{IsRight};

    ghost Value = { Slots };

    ghost view = { λ a. record { entries = a.map.entries } };

    ghost invariant = { λ a. IsRight a.map.entries a.run };
}

// Written out, so that whoever drops an index is told of one call, and not of each part.
impl Drop for SlotIndex {
    fn drop(self) {
        let SlotIndex { map, run } = self;
        drop(map);
        drop(run);
    }
}

impl SlotIndex {
    pub fn new(alloc: Global) -> SlotIndex
        ensures empty { result.entries ≡ [] }
    {
        SlotIndex {
            map: BTreeMap::new(alloc),
            run: Run::new(alloc),
        }
    }

    /// The slots of a map.
    pub fn of(alloc: Global, map: BTreeMap<u32, Slot>) -> Result<SlotIndex, NoMemory>
        ensures entries { IfOk result (λ index. index.entries ≡ map.entries) }
    {
        let run = run_of(alloc, &map)?;
        Ok(SlotIndex { map, run })
    }

    /// How many rows there are.
    pub fn len(&self) -> usize
        ensures len { result ≡ length self.now.entries }
    {
        self.map.len()
    }

    /// The slot of the row with an id.
    #[inline(always)]
    pub fn slot_at(&self, id: u32) -> Option<Slot>
        ensures { result ≡ index.slot_at self.now.entries id }
    {
        match self.run.slot_of(id) {
            Some(slot) => Some(slot),
            None => slot_at(&self.map, id),
        }
    }

    /// The next id behind this one, which may be there or not.
    pub fn id_behind(&self, id: u32) -> Option<u32>
        ensures { result ≡ index.id_behind self.now.entries id }
    {
        id_behind(&self.map, id)
    }

    /// A row with an id above all others.
    pub fn push(&mut self, id: u32, slot: Slot) -> Result<(), NoMemory>
        requires last { AllByRecursion (λ (e : ℕ × Number). e.0 < id) self.old.entries }
        ensures entries { OnOk result (self.new.entries ≡ self.old.entries ++ (id, slot) ∷ []) }
        ensures found { OnOk result (index.slot_at self.new.entries id ≡ Some slot) }
        ensures err { OnErr result (self.new.entries ≡ self.old.entries) }
    {
        self.run.reach(id, self.map.len())?;
        self.map.insert(id, slot)?;
        self.run.set(id, slot);
        Ok(())
    }

    /// The row with this id is in this slot from then on. No memory is taken.
    pub fn set(&mut self, id: u32, slot: Slot)
        requires there { IsSome (index.slot_at self.old.entries id) }
        ensures entries { self.new.entries ≡ insert_entry nat_cmp self.old.entries id slot }
    {
        match self.map.insert(id, slot) {
            Ok(_) => self.run.set(id, slot),
            Err(_) => unreachable!(),
        }
    }

    /// The row with this id is no longer there.
    pub fn remove(&mut self, id: u32)
        ensures entries { self.new.entries
            ≡ remove_entry (is_at (nat_cmp id)) self.old.entries }
    {
        self.run.set(id, Slot(0));
        self.map.remove(&id);
    }
}

// What is known of the ids of a map.
fn run_of(alloc: Global, map: &BTreeMap<u32, Slot>) -> Result<Run, NoMemory>
    ensures { IfOk result (IsRight map.now.entries) }
{
    let mut run = Run::new(alloc);
    for (id, slot) in map.iter() {
        run.reach(*id, map.len())?;
        run.set(*id, *slot);
    }
    Ok(run)
}
