ghost use Rattle.std.specs.Prelude.{OnOk};
ghost use Rattle.pl_base.specs.Good.{HasGoodItems};
ghost use Rattle.pl_base.specs.Rows.{store_of};

use crate::draw::Draw;
use crate::fault::Fault;
use crate::known::{known_page, known_visit, with_room};
use crate::sum::Sum;
use pl_base::{Ids, Micros, PageId, Rows, Steps, Transition, VisitId, VisitRow};
use std::sync::ledger::Ledger;
use trials_forms::kept;

/// A visit to a page, with a date and the visit that it came from.
#[derive(Clone, Copy, Debug, PartialEq, Eq)]
pub struct Visit {
    pub page: PageId,
    pub date: u32,
    pub source: Option<VisitId>,
}

// A redirect on each third date, and else a link.
fn transition_on(date: u32) -> Transition {
    if date % 3 == 0 {
        Transition::RedirectPermanent
    } else {
        Transition::Link
    }
}

/// A new visit.
pub fn add_visit<R: Rows, L: Ledger>(
    rows: &mut R,
    visit: Visit,
    steps: &mut Steps<L>,
) -> Result<VisitId, Fault>
    requires good { HasGoodItems (store_of (R.kept rows.old)) }
    ensures good { OnOk result (HasGoodItems (store_of (R.kept rows.new))) }
{
    known_page(rows, visit.page, steps)?;
    known_visit(rows, visit.source, steps)?;
    with_room(rows, 1, steps)?;
    if rows.ids(steps).visit >= Ids::END {
        return Err(Fault::Full);
    }
    let row = VisitRow {
        page: visit.page,
        date: Micros(u64::from(visit.date)),
        transition: transition_on(visit.date),
        source: visit.source,
    };
    Ok(kept::insert_visit(rows, &row, steps)?)
}

/// A visit comes, in every second turn from another, at times in front of later ones, and goes.
pub fn round<R: Rows, L: Ledger>(
    rows: &mut R,
    draw: &mut Draw,
    turn: u32,
    sum: &mut Sum,
    steps: &mut Steps<L>,
) -> Result<(), Fault>
    requires good { HasGoodItems (store_of (R.kept rows.old)) }
    ensures good { OnOk result (HasGoodItems (store_of (R.kept rows.new))) }
{
    let visit = Visit {
        page: draw.page(),
        date: turn % 1_000_000,
        source: (turn % 2 == 0).then_some(draw.visit()),
    };
    let id = add_visit(rows, visit, steps)?;
    sum.visit(rows.older(id, steps));
    sum.visit(rows.latest(visit.page, steps));
    known_visit(rows, Some(id), steps)?;
    kept::remove_visit(rows, id, steps);
    Ok(())
}
