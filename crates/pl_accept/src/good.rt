// Whether the rows are those of a good store.
ghost use Rattle.std.specs.Prelude.{◌≡◌, map, true, IfOk};
ghost use Rattle.std.specs.List.Sorted.{IsStrictlyIncreasing};
ghost use Rattle.pl_base.specs.Good.{IsGood, IsTree};
ghost use Rattle.pl_base.specs.Store.{Item, item_id};
ghost use Rattle.pl_base.specs.Tree.{has_item};
ghost use Rattle.pl_check.specs.Readable.{AreReadable};
ghost use Rattle.pl_check.specs.Rows.{stored_page_ids, stored_visit_ids};
ghost use Rattle.pl_stored.specs.Stored.{stored_store};

use pl_base::NoMemory;
use pl_check::{References, are_good};
use pl_stored::StoredRows;
use std::alloc::Global;

/// Whether they are, if its items are a tree.
pub(crate) fn have_good_rows(alloc: Global, rows: &StoredRows) -> Result<bool, NoMemory>
    requires { AreReadable rows.now }
    ensures good { IfOk result (λ pass. pass ≡ true
        → IsTree rows.now.items → IsGood (stored_store rows.now)) }
    ensures pages { IfOk result (λ pass. pass ≡ true
        → IsStrictlyIncreasing (stored_page_ids rows.now.pages)) }
    ensures visits { IfOk result (λ pass. pass ≡ true
        → IsStrictlyIncreasing (stored_visit_ids rows.now.visits)) }
    ensures items { IfOk result (λ pass. pass ≡ true
        → IsStrictlyIncreasing (map (λ (i : Item). i.id.0) rows.now.items)) }
    ensures root { IfOk result (λ pass. pass ≡ true → has_item rows.now.items (item_id 1) ≡ true) }
    ensures whole { IsGood (stored_store rows.now) → IfOk result (λ pass. pass ≡ true) }
{
    let references = References::of(alloc, &rows.items)?;
    are_good(alloc, rows, &references)
}
