// History that goes.
ghost use Rattle.std.specs.Prelude.{◌≡◌, ℕ, IfOk, map};
ghost use Rattle.std.specs.List.Sorted.{IsStrictlyIncreasing};
ghost use Rattle.pl_base.specs.declared.id.PageId.{PageId};
ghost use Rattle.pl_base.specs.Rows.{IsSound, store_of};
ghost use Rattle.pl_changes.specs.CameFrom.{CameFrom};
ghost use Rattle.pl_known.specs.Changes.{LeadTo};
ghost use Rattle.pl_known.specs.Known.{Knows};
ghost use Rattle.pl_step.specs.Step as spec;
ghost use Rattle.pl_done.specs.Performed.{Performs};

use pl_base::{Day, NoMemory, Refusal, Rows, Steps, VisitId};
use pl_changes::changes;
use pl_done::Done;
use pl_history::{Removal, remove_visits};
use pl_known::Known;
use pl_link::Canon;
use pl_step::{Command, Reply, StepError};
use std::alloc::Global;
use std::sync::ledger::Ledger;

// What becomes of the views once visits went.
fn removed<R: Rows, L: Ledger>(
    alloc: Global,
    rows: &R,
    known: &Known,
    removal: &Removal,
    steps: &mut Steps<L>,
) -> Result<Done, NoMemory>
    requires sound { IsSound (R.kept rows.now) }
    requires ascending { IsStrictlyIncreasing
        (map (λ (page : PageId). page.0) removal.now.pages.items) }
    requires came { CameFrom removal.now.pages.items known.now (store_of (R.kept rows.now)) }
    ensures reply { IfOk result (λ done. done.reply
        ≡ Reply.Removed removal.now.went.visits removal.now.went.pages) }
    ensures leads { IfOk result (λ done. LeadTo (store_of (R.kept rows.now))
        known.now.views.items done.changes.items) }
{
    let changes = changes(alloc, rows, known, &removal.pages, steps)?;
    let reply = Reply::Removed {
        visits: removal.went.visits,
        pages: removal.went.pages,
    };
    Ok(Done { reply, changes })
}

/// A visit goes.
pub fn unvisit<R: Rows, L: Ledger>(
    alloc: Global,
    rows: &mut R,
    known: &Known,
    visit: VisitId,
    steps: &mut Steps<L>,
) -> Result<Done, StepError>
    requires sound { IsSound (R.kept rows.old) }
    requires knows { Knows (store_of (R.kept rows.old)) known.now }
    ensures performs { (limit : ℕ) → Performs R.kept R.base
        (spec.perform limit (store_of (R.kept rows.old)) (Command.Unvisit visit))
        rows.old rows.new known.now result }
{
    if rows.visit_at(visit, steps).is_none() {
        return Err(StepError::Refused(Refusal::NoVisit(visit)));
    }
    let removal = remove_visits(alloc, rows, &known.views, &[visit], steps)?;
    Ok(removed(alloc, rows, known, &removal, steps)?)
}

/// All visits to the page of the URL go.
pub fn forget<R: Rows, L: Ledger>(
    alloc: Global,
    rows: &mut R,
    known: &Known,
    url: &Canon,
    steps: &mut Steps<L>,
) -> Result<Done, StepError>
    requires sound { IsSound (R.kept rows.old) }
    requires knows { Knows (store_of (R.kept rows.old)) known.now }
    ensures performs { (limit : ℕ) → Performs R.kept R.base
        (spec.perform limit (store_of (R.kept rows.old)) (Command.Forget url.now))
        rows.old rows.new known.now result }
{
    let Some(view) = known.find(url.text()) else {
        return Err(StepError::Refused(Refusal::NoPage));
    };
    let removal = pl_history::forget(alloc, rows, &known.views, view.id, steps)?;
    Ok(removed(alloc, rows, known, &removal, steps)?)
}

/// The visits of the days before this one go.
pub fn expire<R: Rows, L: Ledger>(
    alloc: Global,
    rows: &mut R,
    known: &Known,
    day: Day,
    steps: &mut Steps<L>,
) -> Result<Done, StepError>
    requires sound { IsSound (R.kept rows.old) }
    requires knows { Knows (store_of (R.kept rows.old)) known.now }
    ensures performs { (limit : ℕ) → Performs R.kept R.base
        (spec.perform limit (store_of (R.kept rows.old)) (Command.Expire day))
        rows.old rows.new known.now result }
{
    let removal = pl_history::expire(alloc, rows, &known.views, day, steps)?;
    Ok(removed(alloc, rows, known, &removal, steps)?)
}

/// The pages that no item has go, the stalest first, until there are so many pages.
pub fn trim<R: Rows, L: Ledger>(
    alloc: Global,
    rows: &mut R,
    known: &Known,
    most: u32,
    steps: &mut Steps<L>,
) -> Result<Done, StepError>
    requires sound { IsSound (R.kept rows.old) }
    requires knows { Knows (store_of (R.kept rows.old)) known.now }
    ensures performs { (limit : ℕ) → Performs R.kept R.base
        (spec.perform limit (store_of (R.kept rows.old)) (Command.Trim most))
        rows.old rows.new known.now result }
{
    let removal = pl_history::trim(alloc, rows, &known.views, most, steps)?;
    Ok(removed(alloc, rows, known, &removal, steps)?)
}
