// The day that the store is at.
ghost use Rattle.std.specs.Prelude.{◌≡◌, ◌+◌, ◌*◌, ◌^◌, ◌<◌, ◌≤◌, ◌∷◌, ℕ, List, Some, true};
ghost use Rattle.std.specs.Prelude.{IfOk, OnOk};
ghost use Rattle.std.specs.List.{count_by};
ghost use Rattle.pl_base.specs.declared.id.PageId.{PageId};
ghost use Rattle.pl_base.specs.Date.{IsDay};
ghost use Rattle.pl_base.specs.Days.{on_day, pages_moved};
ghost use Rattle.pl_base.specs.Rows.{HaveSums, IsSound, most_reads, store_of};
ghost use Rattle.pl_calendar.specs.Days.{is_due_by};
ghost use Rattle.pl_changes.specs.Brings.{IsChangeTo};
ghost use Rattle.pl_done.specs.Performed.{Performs};
ghost use Rattle.pl_history.specs.Aging.{HadPageOf, page_reads};
ghost use Rattle.pl_known.specs.Changes.{LeadTo};
ghost use Rattle.pl_known.specs.Known.{Knows};
ghost use Rattle.pl_marks.specs.Refreshed.{AreRightBut};
ghost use Rattle.pl_step.specs.Step as spec;
ghost use Rattle.pl_visiting.specs.NewDay as new_day;
ghost use Rattle.pl_visiting.specs.NewDay.{day_reads, pages_due};

use pl_base::{Change, Day, NoMemory, Refusal, Rows, Steps, View};
use pl_done::Done;
use pl_history::age_page;
use pl_known::Known;
use pl_step::{Command, Reply, StepError};
use std::alloc::Global;
use std::sync::ledger::Ledger;

// The page of a view that is due has the frecency of the rows' day from then on. The answer is the
// change of the view.
fn aged<R: Rows, L: Ledger>(
    alloc: Global,
    rows: &mut R,
    old: &View,
    steps: &mut Steps<L>,
) -> Result<Change, NoMemory>
    requires had { HadPageOf (store_of (R.kept rows.old)) old.now }
    requires due { is_due_by (R.kept rows.old).day old.now ≡ true }
    requires sums { HaveSums (R.kept rows.old) }
    ensures change { IfOk result (IsChangeTo (store_of (R.kept rows.old)) old.now.id
        (Some old.now)) }
    ensures store { OnOk result (store_of (R.kept rows.new) ≡ store_of (R.kept rows.old)) }
    // One page fewer may be wrong.
    ensures right { OnOk result ((ids : List PageId) → AreRightBut (old.now.id ∷ ids)
        (R.kept rows.old) → AreRightBut ids (R.kept rows.new)) }
    ensures sums { OnOk result (HaveSums (R.kept rows.new)) }
    ensures base { OnOk result ((bytes : List ℕ) → R.base rows.old bytes → R.base rows.new bytes) }
    ensures cost { steps.new ≤ steps.old + page_reads }
{
    let aged = age_page(alloc, rows, old, steps)?;
    Ok(Change {
        old: Some(old.copied(alloc)?),
        new: Some(View {
            frecency: aged.frecency,
            due: aged.due,
            ..old.copied(alloc)?
        }),
    })
}

// The store is at this day, and each page that is due by it has the frecency of that day, as all
// others have already. The answer is the changes of views.
fn set_day<R: Rows, L: Ledger>(
    alloc: Global,
    rows: &mut R,
    known: &Known,
    day: Day,
    steps: &mut Steps<L>,
) -> Result<Vec<Change>, NoMemory>
    requires day { IsDay day }
    requires later { (R.kept rows.old).day.0 ≤ day.0 }
    requires sound { IsSound (R.kept rows.old) }
    requires knows { Knows (store_of (R.kept rows.old)) known.now }
    ensures store { OnOk result (store_of (R.kept rows.new)
        ≡ on_day day (store_of (R.kept rows.old))) }
    ensures sound { OnOk result (IsSound (R.kept rows.new)) }
    ensures leads { IfOk result (λ changes. LeadTo (store_of (R.kept rows.new))
        known.now.views.items changes.items) }
    ensures moved { IfOk result (λ changes. count_by new_day.is_moved changes.items
        ≡ pages_moved day (store_of (R.kept rows.old))) }
    ensures base { OnOk result ((bytes : List ℕ) → R.base rows.old bytes → R.base rows.new bytes) }
    ensures cost { steps.new ≤ steps.old + most_reads
        + page_reads * pages_due day (store_of (R.kept rows.old)) }
{
    rows.set_day(day, steps);
    let due = known.calendar.due_through(alloc, day)?;
    let mut changes = Vec::new(alloc);
    for page in &due {
        let old = known.view(*page).unwrap();
        changes.push(aged(alloc, rows, old, steps)?)?;
    }
    Ok(changes)
}

// Whether a change leads to another frecency.
fn is_moved(change: &Change) -> bool
    ensures { result ≡ new_day.is_moved change.now }
{
    match (&change.old, &change.new) {
        (Some(old), Some(new)) => old.frecency != new.frecency,
        _ => false,
    }
}

// How many of the changes do.
fn moved(changes: &[Change]) -> u32
    requires { count_by new_day.is_moved changes.now < 2 ^ 32 }
    ensures { result ≡ count_by new_day.is_moved changes.now }
{
    changes.iter().filter(|change| is_moved(change)).count() as u32
}

/// The store is at this day from then on.
///
/// Only the pages that are due by the day are read. Where none is, no memory is taken.
pub fn day<R: Rows, L: Ledger>(
    alloc: Global,
    rows: &mut R,
    known: &Known,
    day: Day,
    steps: &mut Steps<L>,
) -> Result<Done, StepError>
    requires day { IsDay day }
    requires sound { IsSound (R.kept rows.old) }
    requires knows { Knows (store_of (R.kept rows.old)) known.now }
    ensures performs { (limit : ℕ) → Performs R.kept R.base
        (spec.perform limit (store_of (R.kept rows.old)) (Command.Day day))
        rows.old rows.new known.now result }
    ensures cost { steps.new ≤ steps.old + day_reads day (store_of (R.kept rows.old)) }
{
    let kept = rows.day(steps);
    if day < kept {
        return Err(StepError::Refused(Refusal::DayBack(kept)));
    }
    let changes = set_day(alloc, rows, known, day, steps)?;
    Ok(Done {
        reply: Reply::Day {
            day,
            changed: moved(&changes),
        },
        changes,
    })
}
