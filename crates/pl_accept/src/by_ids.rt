// The rows by their ids.
ghost use Rattle.std.specs.Prelude.{◌≡◌, map, true, IfOk, IsErrOf};
ghost use Rattle.std.specs.List.Sorted.{IsStrictlyIncreasing};
ghost use Rattle.pl_accept.specs.Held.{AreByIds, HasIdEach};
ghost use Rattle.pl_base.specs.Good.{IsTree};
ghost use Rattle.pl_base.specs.Store.{Item, item_id};
ghost use Rattle.pl_base.specs.Tree.{has_item};
ghost use Rattle.pl_check.specs.Rows.{stored_page_ids, stored_visit_ids};

use crate::accepted::Accepted;
use crate::slots::{item_slots, page_slots, visit_slots};
use pl_base::CheckError;
use pl_items::Items;
use pl_load::FileRows;
use pl_stored::StoredRows;
use std::alloc::Global;

/// These rows. `NotAStore` comes exactly where the items are no tree.
pub(crate) fn rows_by_ids(alloc: Global, rows: FileRows) -> Result<Accepted, CheckError>
    requires as_many { HasIdEach rows }
    requires pages { IsStrictlyIncreasing (stored_page_ids rows.stored.pages) }
    requires visits { IsStrictlyIncreasing (stored_visit_ids rows.stored.visits) }
    requires items { IsStrictlyIncreasing (map (λ (i : Item). i.id.0) rows.stored.items) }
    requires root { has_item rows.stored.items (item_id 1) ≡ true }
    ensures rows { IfOk result (AreByIds rows) }
    ensures tree { IfOk result (λ _. IsTree rows.stored.items) }
    ensures none { IsErrOf result CheckError.NotAStore → IsTree rows.stored.items → ⊥ }
{
    let FileRows { live, stored, .. } = rows;
    let StoredRows {
        pages,
        visits,
        items,
        ..
    } = stored;
    let accepted = Accepted {
        pages: page_slots(alloc, &pages, &live.places)?,
        visits: visit_slots(alloc, &visits, &live.visits)?,
        items: item_slots(alloc, &items, &live.items)?,
    };
    match Items::planted(alloc, items)? {
        Some(_tree) => Ok(accepted),
        None => Err(CheckError::NotAStore),
    }
}
