// Whether an item lies in another one.
ghost use Rattle.std.specs.Prelude.{◌≡◌};
ghost use Rattle.pl_base.specs.Good.{HasGoodItems};
ghost use Rattle.pl_base.specs.Rows.{store_of};
ghost use Rattle.pl_base.specs.Tree.{parent_of};
ghost use Rattle.pl_base.specs.Tree as spec;

use pl_base::{ItemId, Rows, Steps};
use std::sync::ledger::Ledger;

// The item whose child it is.
pub(crate) fn parent<R: Rows, L: Ledger>(
    rows: &R,
    item: ItemId,
    steps: &mut Steps<L>,
) -> Option<ItemId>
    requires { HasGoodItems (store_of (R.kept rows.now)) }
    ensures { result ≡ parent_of (R.kept rows.now).items item }
{
    rows.item_at(item, steps)?.parent
}

/// Whether an item is `top` or lies below it.
pub fn lies_in<R: Rows, L: Ledger>(
    rows: &R,
    top: ItemId,
    item: ItemId,
    steps: &mut Steps<L>,
) -> bool
    requires good { HasGoodItems (store_of (R.kept rows.now)) }
    ensures { result ≡ spec.lies_in (R.kept rows.now).items top item }
{
    let mut next = Some(item);
    while let Some(id) = next {
        if id == top {
            return true;
        }
        next = parent(rows, id, steps);
    }
    false
}
