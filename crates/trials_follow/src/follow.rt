// Followers that are told of many changes, beside those that are made from the views as they then
// are.
ghost use Rattle.std.specs.Prelude.{OnOk};
ghost use Rattle.trials_views.specs.Books.{IsBook};

use crate::changes::change;
use crate::kept::Kept;
use pl_calendar::Calendar;
use pl_follow::{FoldedTexts, Follow, OrderIndex, UrlIndex};
use pl_totals::Totals;
use std::alloc::Global;
use std::process::Abort;
use std::test::Fail;
use trials_views::Book;

// How many turns a part has, and how many parts there are.
const TURNS: u32 = 600;

const PARTS: u32 = 30;

// Makes the changes of a part, and says how many suited the views.
fn changes<F: Follow>(alloc: Global, book: &mut Book<F>, part: u32) -> Result<u32, Fail>
    requires book { IsBook F.stands book.old }
    ensures { OnOk result (IsBook F.stands book.new) }
{
    let mut made = 0u32;
    for turn in 0..TURNS {
        let suits = change(alloc, book, part.wrapping_mul(TURNS).wrapping_add(turn))?;
        made = made.wrapping_add(u32::from(suits));
    }
    Ok(made)
}

fn expect_alike<K: Kept>(rt: &impl Abort, alloc: Global, book: &Book<K>) -> Result<(), Fail>
    requires book { IsBook K.stands book.now }
{
    let made = book.afresh(alloc, K::empty(alloc))?;
    let kept = &book.follows.other;
    let alike = kept.is_like(alloc, &made)? && made.is_like(alloc, kept)?;
    assert!(rt; alike);
    Ok(())
}

fn check<K: Kept>(rt: &impl Abort, alloc: Global) -> Result<(), Fail> {
    let mut book = Book::new(alloc, K::empty(alloc));
    let mut made = 0u32;
    for part in 0..PARTS {
        made = made.wrapping_add(changes(alloc, &mut book, part)?);
        expect_alike(rt, alloc, &book)?;
    }
    assert!(rt; made > 10_000, "{made}");
    assert!(rt; book.views.len() > 200, "{}", book.views.len());
    Ok(())
}

#[test]
fn ten_thousand_changes_are_followed(rt: HostRuntime) -> Result<(), Fail> {
    check::<UrlIndex>(&rt, rt.alloc())?;
    check::<OrderIndex>(&rt, rt.alloc())?;
    check::<FoldedTexts>(&rt, rt.alloc())?;
    check::<Calendar>(&rt, rt.alloc())?;
    check::<Totals>(&rt, rt.alloc())
}
