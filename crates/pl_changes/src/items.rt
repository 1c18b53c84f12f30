// The changes of views that a command on items makes.
ghost use Rattle.std.specs.Prelude.{◌≡◌, IfOk, Some, map, true};
ghost use Rattle.std.specs.List.Sorted.{IsStrictlyIncreasing};
ghost use Rattle.pl_base.specs.declared.id.PageId.{PageId};
ghost use Rattle.pl_base.specs.Rows.{IsSound, KeptPage, has_page, page_at, store_of};
ghost use Rattle.pl_base.specs.View.{IsViewOf};
ghost use Rattle.pl_changes.specs.Brings.{Brings, KeepAddresses, KeepsAddress};
ghost use Rattle.pl_changes.specs.CameFrom.{CameByItems};
ghost use Rattle.pl_known.specs.Changes.{LeadTo};
ghost use Rattle.pl_known.specs.Known.{AreFollowed, view_of};

use crate::one_page::{add, arrived, gone};
use pl_base::{Change, NoMemory, PageId, Rows, Steps, Txt, View};
use pl_known::Known;
use pl_marks::{item_figures, page_figures};
use std::alloc::Global;
use std::sync::ledger::Ledger;

// The view that the page has now, by the address and the title that it had before.
fn view_now<R: Rows, L: Ledger>(
    alloc: Global,
    rows: &R,
    old: &View,
    steps: &mut Steps<L>,
) -> Result<View, NoMemory>
    requires page { has_page (R.kept rows.now) old.now.id ≡ true }
    requires sound { IsSound (R.kept rows.now) }
    requires address { KeepsAddress (store_of (R.kept rows.now)) old.now }
    ensures { IfOk result (λ view. (p : KeptPage)
        → page_at (R.kept rows.now) old.now.id ≡ Some p
        → IsViewOf (store_of (R.kept rows.now)) p.page view) }
{
    let figures = page_figures(rows, old.id, steps);
    let items = item_figures(alloc, rows, old.id, steps)?;
    Ok(View {
        id: old.id,
        url: Txt::copied(alloc, old.url.as_str())?,
        title: Txt::copied(alloc, old.title.as_str())?,
        mark_title: items.mark_title,
        tags: items.tags,
        prefix: Txt::copied(alloc, old.prefix.as_str())?,
        host: Txt::copied(alloc, old.host.as_str())?,
        frecency: figures.frecency,
        count: figures.count,
        last: figures.last,
        due: figures.due,
        typed: figures.typed,
        hidden: figures.hidden,
        bookmarked: items.bookmarked,
        referenced: items.referenced,
    })
}

// What becomes of a page that is known, whose items may have changed too.
fn reviewed<R: Rows, L: Ledger>(
    alloc: Global,
    rows: &R,
    old: &View,
    steps: &mut Steps<L>,
) -> Result<Option<Change>, NoMemory>
    requires sound { IsSound (R.kept rows.now) }
    requires address { KeepsAddress (store_of (R.kept rows.now)) old.now }
    ensures { IfOk result (Brings (store_of (R.kept rows.now)) old.now.id (Some old.now)) }
{
    if rows.page_at(old.id, steps).is_none() {
        return Ok(Some(gone(alloc, old)?));
    }
    let new = view_now(alloc, rows, old, steps)?;
    if new == *old {
        return Ok(None);
    }
    Ok(Some(Change {
        old: Some(old.copied(alloc)?),
        new: Some(new),
    }))
}

// The change of one page, if its view is another one.
fn item_change<R: Rows, L: Ledger>(
    alloc: Global,
    rows: &R,
    known: &Known,
    page: PageId,
    steps: &mut Steps<L>,
) -> Result<Option<Change>, NoMemory>
    requires sound { IsSound (R.kept rows.now) }
    requires followed { AreFollowed known.now }
    requires addresses { KeepAddresses (store_of (R.kept rows.now)) known.now.views.items }
    ensures { IfOk result (Brings (store_of (R.kept rows.now)) page
        (view_of page known.now.views.items)) }
{
    match known.view(page) {
        Some(old) => reviewed(alloc, rows, old, steps),
        None => arrived(alloc, rows, page, steps),
    }
}

/// The changes of the views of these pages, whose items may have changed too, by which what is
/// known becomes what the rows tell.
///
/// Of a page that is known, address and title are copied, and neither read nor parsed.
pub fn item_changes<R: Rows, L: Ledger>(
    alloc: Global,
    rows: &R,
    known: &Known,
    pages: &[PageId],
    steps: &mut Steps<L>,
) -> Result<Vec<Change>, NoMemory>
    requires sound { IsSound (R.kept rows.now) }
    requires ascending { IsStrictlyIncreasing (map (λ (page : PageId). page.0) pages.now) }
    requires came { CameByItems pages.now known.now (store_of (R.kept rows.now)) }
    ensures { IfOk result (λ changes. LeadTo (store_of (R.kept rows.now))
        known.now.views.items changes.items) }
{
    let mut changes = Vec::new(alloc);
    for page in pages {
        let change = item_change(alloc, rows, known, *page, steps)?;
        add(&mut changes, change)?;
    }
    Ok(changes)
}
