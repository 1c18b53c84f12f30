// What is done with rows.
mod item_changes;
mod look_ups;
pub(crate) mod marks;
mod page_changes;
pub(crate) mod titles;
pub(crate) mod visit_changes;

ghost use Rattle.std.specs.Prelude.{OnOk};
ghost use Rattle.pl_base.specs.Good.{HasGoodItems};
ghost use Rattle.pl_base.specs.Rows.{store_of};

use crate::draw::Draw;
use crate::fault::Fault;
use crate::order::{Group, Order, Work};
use crate::sum::Sum;
use pl_base::{Rows, Steps};
use std::alloc::Global;
use std::sync::ledger::Ledger;

// One round of calls of a group, the number of which is the turn.
fn round<R: Rows, L: Ledger>(
    alloc: Global,
    rows: &mut R,
    group: Group,
    turn: u32,
    draw: &mut Draw,
    sum: &mut Sum,
    steps: &mut Steps<L>,
) -> Result<(), Fault>
    requires good { HasGoodItems (store_of (R.kept rows.old)) }
    ensures good { OnOk result (HasGoodItems (store_of (R.kept rows.new))) }
{
    match group {
        Group::Pages => look_ups::pages(rows, draw.page(), sum, steps),
        Group::Visits => look_ups::visits(rows, draw.visit(), sum, steps),
        Group::Items => look_ups::items(rows, draw.item(), sum, steps),
        Group::Texts => look_ups::texts(rows, draw.page(), draw.item(), sum, steps),
        Group::Whole => look_ups::whole(rows, sum, steps),
        Group::Marks => marks::round(rows, draw.page(), turn, sum, steps),
        Group::Titles => titles::round(rows, draw.page(), turn, sum, steps),
        Group::VisitChanges => visit_changes::round(rows, draw, turn, sum, steps),
        Group::ItemChanges => item_changes::round(alloc, rows, draw, sum, steps),
    }
}

fn rounds<R: Rows, L: Ledger>(
    alloc: Global,
    rows: &mut R,
    group: Group,
    times: u32,
    steps: &mut Steps<L>,
) -> Result<Sum, Fault>
    requires { HasGoodItems (store_of (R.kept rows.old)) }
{
    let mut draw = Draw::below(rows.ids(steps));
    let mut sum = Sum::new();
    for turn in 0..times {
        round(alloc, rows, group, turn, &mut draw, &mut sum, steps)?;
    }
    Ok(sum)
}

/// Does the work, and gives the sum of what the rows answered.
pub fn perform<R: Rows, L: Ledger>(
    alloc: Global,
    rows: &mut R,
    order: &Order,
    steps: &mut Steps<L>,
) -> Result<Sum, Fault>
    requires { HasGoodItems (store_of (R.kept rows.old)) }
{
    match order.work {
        Work::Rounds(group) => rounds(alloc, rows, group, order.times, steps),
        Work::PageChanges => page_changes::rounds(alloc, rows, order.times, steps),
    }
}
