// The view of a page.
ghost use Rattle.std.specs.Prelude.{◌≡◌, Some, true, IfOk};
ghost use Rattle.pl_base.specs.Good.{IsGood};
ghost use Rattle.pl_base.specs.Rows.{IsRight, KeptPage, has_page, page_at, store_of};
ghost use Rattle.pl_base.specs.View.{IsViewOf};

use crate::figures::page_figures;
use crate::items::item_figures;
use crate::url_parts::parts_of;
use pl_base::{NoMemory, PageId, Rows, Steps, View};
use std::alloc::Global;
use std::sync::ledger::Ledger;

/// The view of a page.
pub fn page_view<R: Rows, L: Ledger>(
    alloc: Global,
    rows: &R,
    page: PageId,
    steps: &mut Steps<L>,
) -> Result<View, NoMemory>
    requires page { has_page (R.kept rows.now) page ≡ true }
    requires good { IsGood (store_of (R.kept rows.now)) }
    requires right { IsRight (R.kept rows.now) }
    ensures { IfOk result (λ view. (p : KeptPage) → page_at (R.kept rows.now) page ≡ Some p
        → IsViewOf (store_of (R.kept rows.now)) p.page view) }
{
    let figures = page_figures(rows, page, steps);
    let items = item_figures(alloc, rows, page, steps)?;
    let url = rows.url(page, steps)?;
    let parts = parts_of(alloc, url.as_str())?;
    Ok(View {
        id: page,
        url,
        title: rows.title(page, steps)?,
        mark_title: items.mark_title,
        tags: items.tags,
        prefix: parts.prefix,
        host: parts.host,
        frecency: figures.frecency,
        count: figures.count,
        last: figures.last,
        due: figures.due,
        typed: figures.typed,
        hidden: figures.hidden,
        bookmarked: items.bookmarked,
        referenced: items.referenced,
    })
}
