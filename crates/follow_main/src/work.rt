// Views that are made and changed while something follows them.
ghost use Rattle.std.specs.Prelude.{[], OnOk};
ghost use Rattle.trials_views.specs.Books.{IsBook};

use crate::order::Order;
use crate::pages::{changed, page};
use pl_base::NoMemory;
use pl_follow::Follow;
use std::alloc::Global;
use trials_views::{Book, drawn};

// A page that goes is one of so many at the end.
const GOING: u32 = 64;

/// How many views were made and changes done, how many views there are, and the sum of their
/// positive frecencies.
#[derive(Clone, Copy)]
pub struct Done {
    pub changes: u32,
    pub views: usize,
    pub sum: u64,
}

/// Makes views and changes them.
pub fn work<F: Follow + Drop>(alloc: Global, follower: F, order: &Order) -> Result<Done, NoMemory>
    requires { F.stands follower [] }
{
    let hosts = order.views / 20;
    let mut book = Book::new(alloc, follower);
    let mut changes = 0u32;
    for number in 0..order.views {
        changes = changes.wrapping_add(u32::from(come(alloc, &mut book, number, hosts)?));
    }
    for turn in 0..order.changes {
        let number = order.views.wrapping_add(turn);
        changes = changes.wrapping_add(u32::from(change(alloc, &mut book, turn, number, hosts)?));
    }
    Ok(Done {
        changes,
        views: book.views.len(),
        sum: book.sum,
    })
}

fn come<F: Follow>(
    alloc: Global,
    book: &mut Book<F>,
    number: u32,
    hosts: u32,
) -> Result<bool, NoMemory>
    requires book { IsBook F.stands book.old }
    ensures { OnOk result (IsBook F.stands book.new) }
{
    let new = page(alloc, number, hosts)?;
    book.come(alloc, new)
}

// A change: each fourth is of a page that goes and another one that comes.
fn change<F: Follow>(
    alloc: Global,
    book: &mut Book<F>,
    turn: u32,
    number: u32,
    hosts: u32,
) -> Result<bool, NoMemory>
    requires book { IsBook F.stands book.old }
    ensures { OnOk result (IsBook F.stands book.new) }
{
    if turn % 4 == 3 {
        let went = go(alloc, book, turn)?;
        let came = come(alloc, book, number, hosts)?;
        return Ok(went && came);
    }
    turned(alloc, book, turn)
}

fn go<F: Follow>(alloc: Global, book: &mut Book<F>, turn: u32) -> Result<bool, NoMemory>
    requires book { IsBook F.stands book.old }
    ensures { OnOk result (IsBook F.stands book.new) }
{
    let back = drawn(turn, 13, GOING) as usize;
    let place = book.views.len().saturating_sub(1).saturating_sub(back);
    book.go(alloc, place)
}

fn turned<F: Follow>(alloc: Global, book: &mut Book<F>, turn: u32) -> Result<bool, NoMemory>
    requires book { IsBook F.stands book.old }
    ensures { OnOk result (IsBook F.stands book.new) }
{
    let count = u32::try_from(book.views.len()).unwrap_or(0);
    let place = drawn(turn, 14, count) as usize;
    let Some(old) = book.views.get(place) else {
        return Ok(false);
    };
    let new = changed(alloc, old, turn)?;
    book.turn(alloc, place, new)
}
