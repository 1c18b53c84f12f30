// The changes of pages that come and go, and the list that the change of a page joins.
ghost use Rattle.std.specs.Prelude.{◌≡◌, ◌++◌, Some, None, IfOk, OnOk};
ghost use Rattle.std.specs.Option.{option_to_list};
ghost use Rattle.pl_base.specs.declared.change.Change.{Change};
ghost use Rattle.pl_base.specs.Rows.{IsSound, store_of};
ghost use Rattle.pl_changes.specs.Brings.{Brings};

use pl_base::{Change, NoMemory, PageId, Rows, Steps, View};
use pl_marks::page_view;
use std::alloc::Global;
use std::sync::ledger::Ledger;

/// The change of a page that is known and is gone.
pub fn gone(alloc: Global, old: &View) -> Result<Change, NoMemory>
    ensures { IfOk result (λ change. change ≡ record { old = Some old.now; new = None }) }
{
    Ok(Change {
        old: Some(old.copied(alloc)?),
        new: None,
    })
}

/// The change of a page that is not known, if the rows have it.
pub fn arrived<R: Rows, L: Ledger>(
    alloc: Global,
    rows: &R,
    page: PageId,
    steps: &mut Steps<L>,
) -> Result<Option<Change>, NoMemory>
    requires { IsSound (R.kept rows.now) }
    ensures { IfOk result (Brings (store_of (R.kept rows.now)) page None) }
{
    if rows.page_at(page, steps).is_none() {
        return Ok(None);
    }
    Ok(Some(Change {
        old: None,
        new: Some(page_view(alloc, rows, page, steps)?),
    }))
}

/// The change of a page, if there is one, joins those of the pages before it.
pub fn add(changes: &mut Vec<Change>, change: Option<Change>) -> Result<(), NoMemory>
    ensures { OnOk result (changes.new.items ≡ changes.old.items ++ option_to_list change) }
{
    if let Some(change) = change {
        changes.push(change)?;
    }
    Ok(())
}
