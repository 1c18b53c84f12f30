// The views of pages, by numbers. `bench/follow.py` makes the same.
use pl_base::{Day, Micros, NoMemory, PageId, View};
use std::alloc::Global;
use trials_views::{Look, drawn, view};

fn title(alloc: Global, number: u32, part: u32) -> Result<String, NoMemory> {
    let word = drawn(number, part, 1_000_000);
    Ok(format!(in alloc; "A page about the number {word}, seen as page {number}")?)
}

fn frecency(number: u32, part: u32) -> i64 {
    i64::from(drawn(number, part, 10_000))
}

fn last(number: u32, part: u32) -> Option<Micros> {
    Some(Micros(u64::from(drawn(number, part, 1_000_000_000))))
}

fn due(number: u32, part: u32) -> Option<Day> {
    Some(Day(drawn(number, part, 90)))
}

/// The view of the page with a number. There are so many hosts.
pub fn page(alloc: Global, number: u32, hosts: u32) -> Result<View, NoMemory> {
    let prefix = match drawn(number, 1, 10) {
        0 => "http://",
        _ => "https://",
    };
    let site = drawn(number, 2, hosts);
    let host = match drawn(number, 3, 2) {
        0 => format!(in alloc; "site{site}.example")?,
        _ => format!(in alloc; "www.site{site}.example")?,
    };
    let query = drawn(number, 4, 1_000_000);
    let url = format!(in alloc; "{prefix}{host}/a/path/to/page/{number}?from={query}")?;
    let title = title(alloc, number, 5)?;
    view(
        alloc,
        Look {
            id: PageId(number.wrapping_add(1)),
            url: url.as_str(),
            prefix,
            host: host.as_str(),
            title: title.as_str(),
            mark_title: "",
            tags: "",
            frecency: frecency(number, 6),
            last: last(number, 7),
            due: due(number, 8),
        },
    )
}

/// The view with another frecency, with another one and other days, or with another title.
pub fn changed(alloc: Global, old: &View, turn: u32) -> Result<View, NoMemory> {
    let look = Look::of(old);
    let rescored = Look {
        frecency: frecency(turn, 9),
        ..look
    };
    match turn % 4 {
        0 => view(alloc, rescored),
        1 => view(
            alloc,
            Look {
                last: last(turn, 10),
                due: due(turn, 11),
                ..rescored
            },
        ),
        _ => retitled(alloc, look, turn),
    }
}

fn retitled(alloc: Global, look: Look, turn: u32) -> Result<View, NoMemory> {
    let title = title(alloc, turn, 12)?;
    view(
        alloc,
        Look {
            title: title.as_str(),
            ..look
        },
    )
}
