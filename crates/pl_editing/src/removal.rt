// An item that goes with all below it, and the pages that lose their last item by that.
ghost use Rattle.std.specs.Prelude.{ℕ};
ghost use Rattle.pl_base.specs.Rows.{IsSound, store_of};
ghost use Rattle.pl_known.specs.Known.{Knows};
ghost use Rattle.pl_step.specs.Step as spec;
ghost use Rattle.pl_done.specs.Performed.{Performs};

use pl_base::{ItemId, Rows, Steps};
use pl_changes::item_changes;
use pl_done::Done;
use pl_history::settle_all;
use pl_known::Known;
use pl_step::{Command, Reply, StepError};
use std::alloc::Global;
use std::sync::ledger::Ledger;

/// The item goes, with all below it. A page that has neither a visit nor an item then goes too.
pub fn remove<R: Rows, L: Ledger>(
    alloc: Global,
    rows: &mut R,
    known: &Known,
    item: ItemId,
    steps: &mut Steps<L>,
) -> Result<Done, StepError>
    requires sound { IsSound (R.kept rows.old) }
    requires knows { Knows (store_of (R.kept rows.old)) known.now }
    ensures performs { (limit : ℕ) → Performs R.kept R.base
        (spec.perform limit (store_of (R.kept rows.old)) (Command.Remove item))
        rows.old rows.new known.now result }
{
    let lost = pl_tree::remove(alloc, rows, item, steps)?;
    settle_all(alloc, rows, &known.views, &lost, steps)?;
    let changes = item_changes(alloc, rows, known, &lost, steps)?;
    Ok(Done {
        reply: Reply::Done,
        changes,
    })
}
