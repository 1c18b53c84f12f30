// Queries that look drawn at random.
use pl_base::MICROS_PER_DAY;
use std::alloc::{AllocError, Global};
use trials_known::{date, one_of};
use trials_views::drawn;

// Frecency descends more often, and by it alone pages are gone through in order.
const SORTS: &[&str] = &[
    "", "&sort=1", "&sort=2", "&sort=3", "&sort=4", "&sort=4", "&sort=5", "&sort=6", "&sort=7",
    "&sort=8", "&sort=11", "&sort=12", "&sort=13", "&sort=14", "&sort=17", "&sort=18", "&sort=21",
    "&sort=21", "&sort=22", "&sort=22", "&sort=22", "&sort=22", "&sort=22",
];

const CUTS: &[&str] = &[
    "",
    "&maxResults=1",
    "&maxResults=2",
    "&maxResults=3",
    "&maxResults=5",
    "&maxResults=100",
];

// What is listed: pages more often than visits or bookmarks.
const KINDS: &[&str] = &[
    "",
    "",
    "",
    "&includeHidden=1",
    "&includeHidden=1",
    "&type=1",
    "&type=1&includeHidden=1",
    "&queryType=1",
];

// The latest visits, which are gone along by the chains of their pages.
const LATEST: &[&str] = &["&type=1", "&type=1&includeHidden=1"];

const CONDITIONS: &[&str] = &[
    "&terms=example",
    "&terms=title a",
    "&terms=STRASSE",
    "&terms=one",
    "&terms=%C3%89",
    "&terms=absent",
    "&minVisits=2",
    "&maxVisits=3",
    "&onlyBookmarked=1",
    "&domain=a.example",
    "&domain=A.example&domainIsHost=1",
    "&domain=example",
    "&domain=",
    "&uri=https://a.example/",
    "&uri=https://c.example/?q=1",
    "&uri=https://absent.example/",
    "&parent=2&parent=3",
    "&parent=7&parent=8&parent=9",
    "&tag=ONE",
    "&tag=Two",
    "&tag=three",
    "&tag=new",
    "&tag=two&tag=one",
    "&tag=two&!tags=1",
    "&tag=absent",
    "&transition=5",
    "&transition=1&transition=2",
    "&excludeQueries=1",
];

// A condition, or none.
fn condition(turn: u32, part: u32) -> &'static str {
    match drawn(turn, part.wrapping_add(10), 3) {
        0 => "",
        _ => one_of(CONDITIONS, turn, part),
    }
}

// What is listed.
fn kind_of(turn: u32) -> &'static str {
    match drawn(turn, 19, 4) {
        0 => one_of(LATEST, turn, 22),
        _ => one_of(KINDS, turn, 22),
    }
}

// The order in which it is listed.
fn sort_of(turn: u32) -> &'static str {
    match drawn(turn, 19, 4) {
        0 => "&sort=4",
        _ => one_of(SORTS, turn, 20),
    }
}

// Times whose ends are dates of visits or lie a microsecond within these, or none.
fn times(alloc: Global, turn: u32) -> Result<String, AllocError> {
    let one = date(turn, 25);
    let other = date(turn, 26);
    let first = one.min(other);
    let last = one.max(other);
    let before = u64::from(drawn(turn, 27, 60)).wrapping_mul(MICROS_PER_DAY);
    match drawn(turn, 28, 18) {
        0 => format!(in alloc; "&beginTime={first}"),
        1 => format!(in alloc; "&endTime={last}"),
        2 => format!(in alloc; "&beginTime={first}&endTime={first}"),
        3 | 4 => format!(in alloc; "&beginTime={first}&endTime={last}"),
        5 => format!(in alloc; "&beginTime={}", first.wrapping_add(1)),
        6 => format!(in alloc; "&endTime={}", last.wrapping_sub(1)),
        7 => format!(in alloc; "&beginTime={}&endTime={last}", first.wrapping_add(1)),
        8 => format!(in alloc; "&beginTime={first}&endTime={}", last.wrapping_sub(1)),
        9 => format!(in alloc; "&beginTime={last}&endTime={first}"),
        10 => format!(in alloc; "&beginTime=-{before}&beginTimeRef=1"),
        11 => format!(in alloc; "&endTime=-{before}&endTimeRef=2"),
        _ => format!(in alloc; ""),
    }
}

/// The text of a query.
pub fn query_of(alloc: Global, turn: u32) -> Result<String, AllocError> {
    let sort = sort_of(turn);
    let cut = one_of(CUTS, turn, 21);
    let kind = kind_of(turn);
    let first = condition(turn, 23);
    let second = condition(turn, 24);
    let times = times(alloc, turn)?;
    format!(in alloc; "place:{sort}{cut}{kind}{first}{second}{times}")
}
