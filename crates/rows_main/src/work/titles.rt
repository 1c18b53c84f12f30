ghost use Rattle.std.specs.Prelude.{OnOk};
ghost use Rattle.pl_base.specs.Good.{HasGoodItems};
ghost use Rattle.pl_base.specs.Rows.{store_of};

use crate::fault::Fault;
use crate::known::{known_page, with_room};
use crate::sum::Sum;
use pl_base::{LONGEST_TITLE, PageId, Rows, Steps, chunks};
use std::sync::ledger::Ledger;
use trials_forms::kept;

// A title of 200 bytes, which takes two slots.
const LONG: &str = "0123456789012345678901234567890123456789012345678901234567890123456789\
    01234567890123456789012345678901234567890123456789012345678901234567890123456789\
    01234567890123456789012345678901234567890123456789";

fn title_of(turn: u32) -> &'static str {
    match turn % 3 {
        0 => "A short title",
        1 => LONG,
        _ => "",
    }
}

/// The page has the title from then on.
pub fn set_title<R: Rows, L: Ledger>(
    rows: &mut R,
    page: PageId,
    title: &str,
    steps: &mut Steps<L>,
) -> Result<(), Fault>
    requires good { HasGoodItems (store_of (R.kept rows.old)) }
    ensures good { OnOk result (HasGoodItems (store_of (R.kept rows.new))) }
{
    known_page(rows, page, steps)?;
    if title.len() > LONGEST_TITLE {
        return Err(Fault::NotHeld);
    }
    with_room(rows, chunks(title), steps)?;
    kept::set_title(rows, page, title, steps)?;
    Ok(())
}

/// Gives a page a title, of another length than in the turn before.
pub fn round<R: Rows, L: Ledger>(
    rows: &mut R,
    page: PageId,
    turn: u32,
    sum: &mut Sum,
    steps: &mut Steps<L>,
) -> Result<(), Fault>
    requires good { HasGoodItems (store_of (R.kept rows.old)) }
    ensures good { OnOk result (HasGoodItems (store_of (R.kept rows.new))) }
{
    sum.add(rows.live(steps));
    set_title(rows, page, title_of(turn), steps)
}
