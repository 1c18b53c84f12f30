// Whether the rows of a file have the marks and the totals that the definitions give.
ghost use Rattle.std.specs.Prelude.{◌≡◌, ◌≤◌, ◌↔◌, length, map, IfOk, IsTrue};
ghost use Rattle.std.specs.List.Sorted.{IsStrictlyIncreasing};
ghost use Rattle.pl_base.specs.Live.{slot_limit};
ghost use Rattle.pl_base.specs.Rows.{IsWellKept, Kept};
ghost use Rattle.pl_check.specs.Rows.{stored_visit_ids};
ghost use Rattle.pl_load.specs.Reads.{AreRead};
ghost use Rattle.pl_record.specs.Records.{Layout};
ghost use Rattle.pl_sound.specs.Right.{AreComputed, IsMarked};

use crate::marks::right_marks;
use crate::totals::are_totals;
use pl_base::{Mark, NoMemory, Slot};
use pl_load::FileRows;
use pl_record::Place;
use pl_stored::StoredRows;
use std::alloc::Global;

/// Whether what a file says of each page and each origin is what the definitions give on the
/// file's day.
///
/// The visits are sorted by their pages, each is read a few times, and no URL is parsed.
pub fn are_right(alloc: Global, rows: &FileRows) -> Result<bool, NoMemory>
    requires visits { IsStrictlyIncreasing (stored_visit_ids rows.now.stored.visits) }
    requires few_visits { length rows.now.stored.visits ≤ slot_limit }
    requires few_pages { length rows.now.places ≤ slot_limit }
    ensures { IfOk result (λ right. (at : Layout) (kept : Kept) → AreRead at kept rows.now
        → IsWellKept kept → IsTrue right ↔ IsMarked kept) }
{
    are_computed(
        alloc,
        &rows.stored,
        &rows.places,
        &rows.live.origins,
        &rows.totals,
    )
}

// Whether the places have the marks of their pages, and the totals are those of the origins.
fn are_computed(
    alloc: Global,
    rows: &StoredRows,
    places: &[Place],
    origins: &[Slot],
    totals: &[u64],
) -> Result<bool, NoMemory>
    requires visits { IsStrictlyIncreasing (stored_visit_ids rows.now.visits) }
    requires few_visits { length rows.now.visits ≤ slot_limit }
    requires few_pages { length places.now ≤ slot_limit }
    ensures { IfOk result (λ right.
        IsTrue right ↔ AreComputed rows.now places.now origins.now totals.now) }
{
    let marks = right_marks(alloc, rows)?;
    if !are_marks(alloc, &marks, places)? {
        return Ok(false);
    }
    are_totals(alloc, places, origins, totals)
}

// Whether these are the marks of the pages.
fn are_marks(alloc: Global, marks: &[Mark], places: &[Place]) -> Result<bool, NoMemory>
    ensures { IfOk result (λ same. IsTrue same ↔ (marks.now ≡ map (λ p. p.mark) places.now)) }
{
    let kept: Vec<Mark> = places.iter().map(|place| place.mark).collect(alloc)?;
    Ok(kept.as_slice() == marks)
}
