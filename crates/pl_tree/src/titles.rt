// An item's title.
ghost use Rattle.std.specs.Prelude.{◌≡◌, ◌≤◌, ℕ, List, Err, None, Some, length, OnOk};
ghost use Rattle.pl_base.specs.Date.{IsDate};
ghost use Rattle.pl_base.specs.Good.{HasGoodItems, longest_title};
ghost use Rattle.pl_base.specs.Live.{slot_limit};
ghost use Rattle.pl_base.specs.Rows.{live_with_item_title, store_of, with_items};
ghost use Rattle.pl_base.specs.Tree.{retitled};
ghost use Rattle.pl_tree.specs.Refused as refused;

use crate::refusals::may_change;
use crate::{TreeChange, TreeError};
use pl_base::{ItemId, Micros, Refusal, Rows, Steps};
use std::sync::ledger::Ledger;

/// The item has the title from then on, and was modified on this date.
///
/// Refused is an item that is not there or stays as it is.
pub fn retitle<R: Rows, L: Ledger>(
    rows: &mut R,
    item: ItemId,
    title: &str,
    date: Micros,
    steps: &mut Steps<L>,
) -> Result<(), TreeError>
    requires good { HasGoodItems (store_of (R.kept rows.old)) }
    requires title { length title.now ≤ longest_title }
    requires date { IsDate date }
    requires live { refused.refusal (R.kept rows.old).items (TreeChange.Retitle item) ≡ None
        → live_with_item_title item title.now date (R.kept rows.old) ≤ slot_limit }
    ensures allowed { OnOk result (refused.refusal (R.kept rows.old).items
        (TreeChange.Retitle item) ≡ None) }
    ensures kept { OnOk result (R.kept rows.new
        ≡ with_items (retitled item title.now date (R.kept rows.old).items) (R.kept rows.old)) }
    ensures refused { (refusal : Refusal) → result ≡ Err (TreeError.Refused refusal)
        → (refused.refusal (R.kept rows.old).items (TreeChange.Retitle item) ≡ Some refusal)
        × (rows.new ≡ rows.old) }
    ensures no_memory { result ≡ Err TreeError.NoMemory
        → refused.refusal (R.kept rows.old).items (TreeChange.Retitle item) ≡ None }
    ensures good { OnOk result (HasGoodItems (store_of (R.kept rows.new))) }
    ensures base { OnOk result ((bytes : List ℕ) → R.base rows.old bytes → R.base rows.new bytes) }
{
    may_change(rows, item, steps)?;
    rows.set_item(item, title, date, steps)?;
    Ok(())
}
