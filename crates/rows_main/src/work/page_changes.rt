ghost use Rattle.std.specs.Prelude.{None, OnOk};
ghost use Rattle.pl_history.specs.Target.{IsTargetOf};
ghost use Rattle.pl_history.specs.declared.find.Target.TheVariants.{New};

use crate::fault::Fault;
use crate::known::{known_page, with_room};
use crate::sum::Sum;
use pl_base::{Ids, Rows, Steps, chunks};
use pl_history::Target;
use pl_link::{Canon, split};
use std::alloc::Global;
use std::sync::ledger::Ledger;
use trials_forms::is_idle;
use trials_trees::find_target;

// No page has it, and none has its origin.
const URL: &str = "https://a-host-that-no-page-has.example/a-page";

/// A page comes in an origin that no page has and goes, so many times.
pub fn rounds<R: Rows, L: Ledger>(
    alloc: Global,
    rows: &mut R,
    times: u32,
    steps: &mut Steps<L>,
) -> Result<Sum, Fault> {
    let url = Canon::read(alloc, URL).map_err(|_| Fault::NotHeld)?;
    let parts = split(alloc, &url)?;
    match find_target(alloc, rows, &url, &parts, steps)? {
        Target::New(None) => come_and_go(rows, &url, times, steps),
        _ => Err(Fault::NotHeld),
    }
}

fn come_and_go<R: Rows, L: Ledger>(
    rows: &mut R,
    url: &Canon,
    times: u32,
    steps: &mut Steps<L>,
) -> Result<Sum, Fault>
    requires new { IsTargetOf (R.kept rows.old) url.now (New None) }
{
    let mut sum = Sum::new();
    for _turn in 0..times {
        round(rows, url, &mut sum, steps)?;
    }
    Ok(sum)
}

fn round<R: Rows, L: Ledger>(
    rows: &mut R,
    url: &Canon,
    sum: &mut Sum,
    steps: &mut Steps<L>,
) -> Result<(), Fault>
    requires new { IsTargetOf (R.kept rows.old) url.now (New None) }
    ensures new { OnOk result (IsTargetOf (R.kept rows.new) url.now (New None)) }
{
    let text = url.text();
    with_room(rows, chunks(text) + 2, steps)?;
    if rows.ids(steps).page >= Ids::END {
        return Err(Fault::Full);
    }
    let page = rows.insert_page(text, None, steps)?;
    sum.page(Some(page));
    sum.add(rows.live(steps));
    known_page(rows, page, steps)?;
    if !is_idle(rows, page, steps) {
        return Err(Fault::NotHeld);
    }
    rows.remove_page(page, steps);
    Ok(())
}
