// The address bar.
ghost use Rattle.std.specs.Prelude.{◌≡◌, Some, true, IfOk};
ghost use Rattle.pl_bar.specs.Filled.{filled};
ghost use Rattle.pl_base.specs.Rows.{IsSound, KeptPage, has_page, page_at, store_of};
ghost use Rattle.pl_base.specs.Store.{Store};
ghost use Rattle.pl_base.specs.Totals.{scored_pages};
ghost use Rattle.pl_known.specs.Known.{AreFollowed, Knows};
ghost use Rattle.pl_step.specs.Step as spec;

use pl_base::{NoMemory, PageId, Rows, Seq, Steps, Txt};
use pl_known::Known;
use pl_step::{BarRow, Reply};
use std::alloc::Global;
use std::sync::ledger::Ledger;

// What is told of a page that is offered.
fn bar_row<R: Rows, L: Ledger>(
    rows: &R,
    page: PageId,
    steps: &mut Steps<L>,
) -> Result<BarRow, NoMemory>
    requires sound { IsSound (R.kept rows.now) }
    requires page { has_page (R.kept rows.now) page ≡ true }
    ensures { IfOk result (λ row. (p : KeptPage) → page_at (R.kept rows.now) page ≡ Some p
        → row ≡ spec.bar_row (store_of (R.kept rows.now)) p.page) }
{
    let mark = rows.page_at(page, steps).unwrap();
    Ok(BarRow {
        id: page,
        frecency: mark.frecency,
        url: rows.url(page, steps)?,
        title: rows.title(page, steps)?,
    })
}

/// The pages that the address bar offers for a text, so many at the most.
pub fn bar<R: Rows, L: Ledger>(
    alloc: Global,
    rows: &R,
    known: &Known,
    max: u32,
    text: &Txt,
    steps: &mut Steps<L>,
) -> Result<Reply, NoMemory>
    requires sound { IsSound (R.kept rows.now) }
    requires knows { Knows (store_of (R.kept rows.now)) known.now }
    ensures { IfOk result (λ reply. reply
        ≡ spec.bar_reply (store_of (R.kept rows.now)) max text.now) }
{
    let mut offered = Vec::new(alloc);
    let pages = pl_bar::answer(
        alloc,
        rows,
        &known.order,
        &known.texts,
        text.as_str(),
        max,
        steps,
    )?;
    for page in pages {
        offered.push(bar_row(rows, page, steps)?)?;
    }
    Ok(Reply::Bar(Seq::from(offered)))
}

/// The group of hosts that is filled in behind a text.
pub fn fill<L: Ledger>(
    alloc: Global,
    known: &Known,
    text: &Txt,
    steps: &mut Steps<L>,
) -> Result<Reply, NoMemory>
    requires followed { AreFollowed known.now }
    ensures { IfOk result (λ reply. (store : Store) → Knows store known.now
        → reply ≡ spec.group_reply (filled (scored_pages store) text.now)) }
{
    let group = pl_bar::fill(alloc, &known.totals, text.as_str(), steps)?;
    Ok(match group {
        Some((group, total)) => Reply::Fill { group, total },
        None => Reply::NoFill,
    })
}
