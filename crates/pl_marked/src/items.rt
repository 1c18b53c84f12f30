// What rows tell of an item that is there.
ghost use Rattle.std.specs.Prelude.{◌≡◌, Some, true};
ghost use Rattle.pl_base.specs.Store.{Item};
ghost use Rattle.pl_base.specs.Tree as tree;
ghost use Rattle.pl_base.specs.Tree.{has_item, item_at};

use pl_base::{ItemId, ItemRow, Rows, Steps};
use std::sync::ledger::Ledger;

pub fn item_row<R: Rows, L: Ledger>(rows: &R, item: ItemId, steps: &mut Steps<L>) -> ItemRow
    requires { has_item (R.kept rows.now).items item ≡ true }
    ensures { (i : Item) → item_at (R.kept rows.now).items item ≡ Some i
        → result ≡ tree.item_row (R.kept rows.now).items i }
{
    rows.item_at(item, steps).unwrap()
}
