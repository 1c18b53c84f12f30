// An item that goes to another place.
ghost use Rattle.std.specs.Prelude.{◌≡◌, ◌≢◌, ℕ, List, Err, None, Some, OnOk};
ghost use Rattle.pl_base.specs.Date.{IsDate};
ghost use Rattle.pl_base.specs.Good.{HasGoodItems};
ghost use Rattle.pl_base.specs.Rows.{store_of, with_items};
ghost use Rattle.pl_tree.specs.Changes.{with_moved};
ghost use Rattle.pl_tree.specs.Refused as refused;

use crate::refusals::may_move;
use crate::{Place, TreeChange, TreeError};
use pl_base::{ItemId, Micros, Refusal, Rows, Steps};
use std::sync::ledger::Ledger;

/// The item goes to a place among the children of a folder. The position counts in the list
/// without the item. No memory is taken.
///
/// Refused are an item that is not there or stays as it is, then a parent that is not there, is no
/// folder or takes no items, then one that lies in the item, then a position past the end.
pub fn move_to<R: Rows, L: Ledger>(
    rows: &mut R,
    item: ItemId,
    parent: ItemId,
    place: Place,
    date: Micros,
    steps: &mut Steps<L>,
) -> Result<(), TreeError>
    requires good { HasGoodItems (store_of (R.kept rows.old)) }
    requires date { IsDate date }
    ensures allowed { OnOk result (refused.refusal (R.kept rows.old).items
        (TreeChange.Move item parent place) ≡ None) }
    ensures kept { OnOk result (R.kept rows.new
        ≡ with_items (with_moved item parent place date (R.kept rows.old).items)
        (R.kept rows.old)) }
    ensures refused { (refusal : Refusal) → result ≡ Err (TreeError.Refused refusal)
        → (refused.refusal (R.kept rows.old).items (TreeChange.Move item parent place)
        ≡ Some refusal) × (rows.new ≡ rows.old) }
    ensures no_memory { result ≢ Err TreeError.NoMemory }
    ensures good { OnOk result (HasGoodItems (store_of (R.kept rows.new))) }
    ensures base { OnOk result ((bytes : List ℕ) → R.base rows.old bytes → R.base rows.new bytes) }
{
    let after = may_move(rows, item, parent, place, steps)?;
    rows.move_item(item, parent, after, steps);
    rows.set_modified(item, date, steps);
    Ok(())
}
