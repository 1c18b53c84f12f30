ghost use Rattle.std.specs.Prelude.{OnOk};
ghost use Rattle.pl_base.specs.Good.{HasGoodItems};
ghost use Rattle.pl_base.specs.Rows.{store_of};

use crate::fault::Fault;
use crate::known::known_page;
use crate::sum::Sum;
use pl_base::{Day, Mark, PageId, Rows, Steps};
use std::sync::ledger::Ledger;
use trials_forms::kept;

/// The page has the frecency from then on, and its origin has it as its total.
pub fn set_frecency<R: Rows, L: Ledger>(
    rows: &mut R,
    page: PageId,
    frecency: u32,
    steps: &mut Steps<L>,
) -> Result<(), Fault>
    requires good { HasGoodItems (store_of (R.kept rows.old)) }
    ensures good { OnOk result (HasGoodItems (store_of (R.kept rows.new))) }
{
    let mark = Mark {
        frecency: i64::from(frecency),
        ..known_page(rows, page, steps)?
    };
    kept::set_mark(rows, page, mark, steps);
    known_page(rows, page, steps)?;
    kept::set_total(rows, page, u64::from(frecency), steps);
    Ok(())
}

/// Sets the day, and a frecency with the total of its page's origin.
pub fn round<R: Rows, L: Ledger>(
    rows: &mut R,
    page: PageId,
    turn: u32,
    sum: &mut Sum,
    steps: &mut Steps<L>,
) -> Result<(), Fault>
    requires good { HasGoodItems (store_of (R.kept rows.old)) }
    ensures good { OnOk result (HasGoodItems (store_of (R.kept rows.new))) }
{
    kept::set_day(rows, Day(turn % Day::LAST.0), steps);
    let before = known_page(rows, page, steps)?;
    sum.add(before.frecency.cast_unsigned());
    set_frecency(rows, page, turn, steps)
}
