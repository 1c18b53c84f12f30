// What the rows of a store that is opened tell of its pages.
ghost use Rattle.std.specs.Prelude.{◌≡◌, Some, true, IfOk, OnOk};
ghost use Rattle.pl_base.specs.Rows.{IsSound, KeptPage, has_page, page_at, store_of};
ghost use Rattle.pl_base.specs.View.{AreViewsOf, IsViewOf};
ghost use Rattle.pl_changes.specs.Origins.{AreTold};
ghost use Rattle.pl_known.specs.Known.{Knows};

use crate::origins::Origins;
use pl_base::{NoMemory, PageId, Rows, Steps, View};
use pl_known::Known;
use pl_marks::{item_figures, page_figures};
use std::alloc::Global;
use std::sync::ledger::Ledger;

// The view of a page, as `page_view` makes it, but that its URL is parsed only where none of its
// origin was.
fn view<R: Rows, L: Ledger>(
    alloc: Global,
    rows: &R,
    page: PageId,
    origins: &mut Origins,
    steps: &mut Steps<L>,
) -> Result<View, NoMemory>
    requires page { has_page (R.kept rows.now) page ≡ true }
    requires sound { IsSound (R.kept rows.now) }
    requires told { AreTold (R.kept rows.now) origins.old }
    ensures view { IfOk result (λ view. (p : KeptPage) → page_at (R.kept rows.now) page ≡ Some p
        → IsViewOf (store_of (R.kept rows.now)) p.page view) }
    ensures told { OnOk result (AreTold (R.kept rows.now) origins.new) }
{
    let figures = page_figures(rows, page, steps);
    let items = item_figures(alloc, rows, page, steps)?;
    let url = rows.url(page, steps)?;
    let origin = origins.origin(alloc, rows, page, url.as_str(), steps)?;
    Ok(View {
        id: page,
        url,
        title: rows.title(page, steps)?,
        mark_title: items.mark_title,
        tags: items.tags,
        prefix: origin.prefix,
        host: origin.host,
        frecency: figures.frecency,
        count: figures.count,
        last: figures.last,
        due: figures.due,
        typed: figures.typed,
        hidden: figures.hidden,
        bookmarked: items.bookmarked,
        referenced: items.referenced,
    })
}

// The view of each page, by ascending id.
fn views<R: Rows, L: Ledger>(
    alloc: Global,
    rows: &R,
    steps: &mut Steps<L>,
) -> Result<Vec<View>, NoMemory>
    requires sound { IsSound (R.kept rows.now) }
    ensures { IfOk result (λ views. AreViewsOf (store_of (R.kept rows.now)) views.items) }
{
    let mut origins = Origins::new(alloc);
    let mut views = Vec::new(alloc);
    let mut next = rows.page_after(None, steps);
    while let Some(page) = next {
        views.push(view(alloc, rows, page, &mut origins, steps)?)?;
        next = rows.page_after(Some(page), steps);
    }
    Ok(views)
}

/// What is known of the pages of these rows, all of which are read.
pub fn known_of<R: Rows, L: Ledger>(
    alloc: Global,
    rows: &R,
    steps: &mut Steps<L>,
) -> Result<Known, NoMemory>
    requires sound { IsSound (R.kept rows.now) }
    ensures { IfOk result (Knows (store_of (R.kept rows.now))) }
{
    let views = views(alloc, rows, steps)?;
    Known::of(alloc, rows.day(steps), views)
}
