// The changes of views that a command on history makes.
ghost use Rattle.std.specs.Prelude.{◌≡◌, IfOk, Some, map};
ghost use Rattle.std.specs.List.Sorted.{IsStrictlyIncreasing};
ghost use Rattle.pl_base.specs.declared.id.PageId.{PageId};
ghost use Rattle.pl_base.specs.Rows.{IsSound, store_of};
ghost use Rattle.pl_changes.specs.Brings.{Brings, KeepTexts, KeepsTexts};
ghost use Rattle.pl_changes.specs.CameFrom.{CameFrom};
ghost use Rattle.pl_known.specs.Changes.{LeadTo};
ghost use Rattle.pl_known.specs.Known.{AreFollowed, view_of};

use crate::one_page::{add, arrived, gone};
use pl_base::{Change, NoMemory, PageId, Rows, Steps, View};
use pl_known::Known;
use pl_marks::{Figures, page_figures};
use std::alloc::Global;
use std::sync::ledger::Ledger;

// What becomes of a page that is known.
fn renewed<R: Rows, L: Ledger>(
    alloc: Global,
    rows: &R,
    old: &View,
    steps: &mut Steps<L>,
) -> Result<Option<Change>, NoMemory>
    requires sound { IsSound (R.kept rows.now) }
    requires texts { KeepsTexts (store_of (R.kept rows.now)) old.now }
    ensures { IfOk result (Brings (store_of (R.kept rows.now)) old.now.id (Some old.now)) }
{
    if rows.page_at(old.id, steps).is_none() {
        return Ok(Some(gone(alloc, old)?));
    }
    let figures = page_figures(rows, old.id, steps);
    if figures == Figures::of(old) {
        return Ok(None);
    }
    Ok(Some(Change {
        old: Some(old.copied(alloc)?),
        new: Some(with_figures(alloc, old, figures)?),
    }))
}

// The view with other figures.
fn with_figures(alloc: Global, old: &View, figures: Figures) -> Result<View, NoMemory>
    ensures { IfOk result (λ view. view ≡ record old.now {
      frecency = figures.frecency;
      count = figures.count;
      last = figures.last;
      due = figures.due;
      typed = figures.typed;
      hidden = figures.hidden;
    }) }
{
    Ok(View {
        frecency: figures.frecency,
        count: figures.count,
        last: figures.last,
        due: figures.due,
        typed: figures.typed,
        hidden: figures.hidden,
        ..old.copied(alloc)?
    })
}

// The change of one page, if its view is another one.
fn change<R: Rows, L: Ledger>(
    alloc: Global,
    rows: &R,
    known: &Known,
    page: PageId,
    steps: &mut Steps<L>,
) -> Result<Option<Change>, NoMemory>
    requires sound { IsSound (R.kept rows.now) }
    requires followed { AreFollowed known.now }
    requires texts { KeepTexts (store_of (R.kept rows.now)) known.now.views.items }
    ensures { IfOk result (Brings (store_of (R.kept rows.now)) page
        (view_of page known.now.views.items)) }
{
    match known.view(page) {
        Some(old) => renewed(alloc, rows, old, steps),
        None => arrived(alloc, rows, page, steps),
    }
}

/// The changes of the views of these pages, by which what is known becomes what the rows tell.
///
/// The texts of a page that is known are copied, and neither read nor parsed.
pub fn changes<R: Rows, L: Ledger>(
    alloc: Global,
    rows: &R,
    known: &Known,
    pages: &[PageId],
    steps: &mut Steps<L>,
) -> Result<Vec<Change>, NoMemory>
    requires sound { IsSound (R.kept rows.now) }
    requires ascending { IsStrictlyIncreasing (map (λ (page : PageId). page.0) pages.now) }
    requires came { CameFrom pages.now known.now (store_of (R.kept rows.now)) }
    ensures { IfOk result (λ changes. LeadTo (store_of (R.kept rows.now))
        known.now.views.items changes.items) }
{
    let mut changes = Vec::new(alloc);
    for page in pages {
        let change = change(alloc, rows, known, *page, steps)?;
        add(&mut changes, change)?;
    }
    Ok(changes)
}
