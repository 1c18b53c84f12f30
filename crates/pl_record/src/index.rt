// The slots of rows by the numbers of their ids.
ghost use Rattle.std.specs.Prelude.{◌≡◌};
ghost use Rattle.pl_record.specs.LinkedRows as index;

use pl_base::Slot;
use std::collections::BTreeMap;
use std::ops::Bound;

/// The slot of the row with an id.
pub fn slot_at(slots: &BTreeMap<u32, Slot>, id: u32) -> Option<Slot>
    ensures { result ≡ index.slot_at slots.now.entries id }
{
    slots.get(&id).copied()
}

/// The next id behind this one, which may be there or not.
pub fn id_behind(slots: &BTreeMap<u32, Slot>, id: u32) -> Option<u32>
    ensures { result ≡ index.id_behind slots.now.entries id }
{
    match slots.range((Bound::Excluded(id), Bound::Unbounded)).next() {
        Some((id, _)) => Some(*id),
        None => None,
    }
}
