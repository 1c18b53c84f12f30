// Changes of views that look drawn at random.
ghost use Rattle.std.specs.Prelude.{OnOk};
ghost use Rattle.trials_views.specs.Books.{IsBook};

use crate::tables::{
    DUE_DAYS, FIRST_DUE, FRECENCIES, HOSTS, IDS, MARK_TITLES, PATHS, PREFIXES, TAGS, TITLES,
};
use pl_base::{Day, Micros, NoMemory, PageId, View};
use pl_follow::Follow;
use std::alloc::Global;
use trials_views::{Book, Look, drawn, view};

// The URL with this prefix and host, and a path with a number.
pub fn url(alloc: Global, prefix: &str, host: &str, path: u32) -> Result<String, NoMemory> {
    Ok(format!(in alloc; "{prefix}{host}/%C3%89A/{path}")?)
}

// One of the texts.
fn one_of(texts: &'static [&'static str], turn: u32, part: u32) -> &'static str {
    let count = u32::try_from(texts.len()).unwrap_or(0);
    let place = drawn(turn, part, count);
    texts.get(place as usize).copied().unwrap_or("")
}

fn frecency(turn: u32) -> i64 {
    let count = u32::try_from(FRECENCIES.len()).unwrap_or(0);
    let place = drawn(turn, 1, count);
    FRECENCIES.get(place as usize).copied().unwrap_or(0)
}

fn last(turn: u32) -> Option<Micros> {
    match drawn(turn, 2, 3) {
        0 => None,
        _ => Some(Micros(u64::from(drawn(turn, 3, 100)))),
    }
}

fn due(turn: u32) -> Option<Day> {
    match drawn(turn, 4, 3) {
        0 => None,
        _ => Some(Day(FIRST_DUE.wrapping_add(drawn(turn, 5, DUE_DAYS)))),
    }
}

// The look with other texts.
fn retitled(look: Look, turn: u32) -> Look {
    Look {
        title: one_of(TITLES, turn, 6),
        mark_title: one_of(MARK_TITLES, turn, 7),
        tags: one_of(TAGS, turn, 8),
        ..look
    }
}

// The look with another frecency and other days.
fn rescored(look: Look, turn: u32) -> Look {
    Look {
        frecency: frecency(turn),
        last: last(turn),
        due: due(turn),
        ..look
    }
}

// Another view under this id.
fn other(alloc: Global, id: PageId, turn: u32) -> Result<View, NoMemory> {
    let prefix = one_of(PREFIXES, turn, 9);
    let host = one_of(HOSTS, turn, 10);
    let url = url(alloc, prefix, host, drawn(turn, 11, PATHS))?;
    let look = Look {
        id,
        url: url.as_str(),
        prefix,
        host,
        title: "",
        mark_title: "",
        tags: "",
        frecency: 0,
        last: None,
        due: None,
    };
    view(alloc, rescored(retitled(look, turn), turn))
}

// What comes in place of a view.
fn turned(alloc: Global, old: &View, turn: u32) -> Result<View, NoMemory> {
    let look = Look::of(old);
    let next = PageId(old.id.0.wrapping_add(1));
    match drawn(turn, 12, 6) {
        0 => other(alloc, old.id, turn),
        1 => other(alloc, next, turn),
        2 => view(alloc, Look { id: next, ..look }),
        3 => view(alloc, retitled(look, turn)),
        4 => view(alloc, rescored(look, turn)),
        _ => view(alloc, rescored(retitled(look, turn), turn)),
    }
}

// Makes the change of a turn, and says whether it suits the views.
pub fn change<F: Follow>(alloc: Global, book: &mut Book<F>, turn: u32) -> Result<bool, NoMemory>
    requires book { IsBook F.stands book.old }
    ensures { OnOk result (IsBook F.stands book.new) }
{
    let id = drawn(turn, 13, IDS);
    let Some(place) = book.views.iter().position(|view| view.id.0 == id) else {
        let new = other(alloc, PageId(id), turn)?;
        return book.come(alloc, new);
    };
    if drawn(turn, 14, 4) == 0 {
        return book.go(alloc, place);
    }
    let new = turned(alloc, &book.views[place], turn)?;
    book.turn(alloc, place, new)
}
