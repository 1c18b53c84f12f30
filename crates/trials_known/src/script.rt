// Lines of a script that look drawn at random, of every command that changes a store.
use std::alloc::{AllocError, Global};
use trials_views::drawn;

pub const URLS: &[&str] = &[
    "https://a.example/",
    "https://a.example/1",
    "https://a.example/2",
    "https://www.a.example/",
    "http://a.example/",
    "http://b.example:8080/%C3%89",
    "http://b.example:8080/x",
    "place:type=3",
    "file:///a",
    "https://c.example/",
    "https://c.example/?q=1",
    "https://d.example/",
    "https://e.example/1",
];

const TITLES: &[&str] = &["", "a title", "Straße"];

// The numbers of transitions, with those of redirects more often.
const TRANSITIONS: &[&str] = &["1", "2", "3", "4", "5", "5", "6", "6", "7", "8", "9"];

const TAGS: &[&str] = &["one", "Two", "TWO", "three"];

// Three roots, and places within a folder.
const ROOTS: &[&str] = &["2", "3", "5"];

const PLACES: &[&str] = &["end", "0", "1"];

const MICROS_PER_DAY: u64 = 86_400_000_000;

const FIRST_DAY: u32 = 20_000;

/// One of the texts, the same one for the same part of the same turn; the empty one if there is
/// none.
pub fn one_of(texts: &'static [&'static str], turn: u32, part: u32) -> &'static str {
    let count = u32::try_from(texts.len()).unwrap_or(0);
    let place = drawn(turn, part, count);
    texts.get(place as usize).copied().unwrap_or("")
}

// The day that the store has come to, or one of the days about it.
fn near_day(turn: u32, part: u32) -> u32 {
    FIRST_DAY
        .wrapping_add(turn / 8)
        .wrapping_sub(drawn(turn, part, 100))
}

/// The ids of the last visit and of the last item that were made.
#[derive(Clone, Copy)]
pub struct Last {
    pub visit: u32,
    pub item: u32,
}

// The last id, or one of those shortly before it: none is 0.
fn recent(last: u32, turn: u32, part: u32) -> u32 {
    last.saturating_sub(drawn(turn, part, 12))
}

/// The first moment of the day that the store has come to, or of one of the hundred before it.
pub fn date(turn: u32, part: u32) -> u64 {
    u64::from(near_day(turn, part)).wrapping_mul(MICROS_PER_DAY)
}

fn visit(alloc: Global, turn: u32, last: Last) -> Result<String, AllocError> {
    let url = one_of(URLS, turn, 1);
    let transition = one_of(TRANSITIONS, turn, 2);
    let date = date(turn, 3);
    match drawn(turn, 4, 3) {
        0 => format!(in alloc; "visit\t{url}\t{transition}\t{date}"),
        _ => format!(in alloc;
            "visit\t{url}\t{transition}\t{date}\t{}",
            recent(last.visit, turn, 5)
        ),
    }
}

// A root, or one of the last items, which may be a folder.
fn parent(alloc: Global, turn: u32, last: Last) -> Result<String, AllocError> {
    match drawn(turn, 10, 3) {
        0 => format!(in alloc; "{}", recent(last.item, turn, 11)),
        _ => format!(in alloc; "{}", one_of(ROOTS, turn, 11)),
    }
}

fn on_items(alloc: Global, turn: u32, last: Last) -> Result<String, AllocError> {
    let parent = parent(alloc, turn, last)?;
    let place = one_of(PLACES, turn, 12);
    let item = recent(last.item, turn, 13);
    let title = one_of(TITLES, turn, 6);
    let date = date(turn, 3);
    match drawn(turn, 14, 24) {
        0 | 1 => format!(in alloc; "folder\t{parent}\t{place}\t{title}\t{date}"),
        2 => format!(in alloc; "separator\t{parent}\t{place}\t{date}"),
        3..=6 => format!(in alloc; "move\t{item}\t{parent}\t{place}\t{date}"),
        7..=10 => format!(in alloc; "retitle\t{item}\t{title}\t{date}"),
        11 => format!(in alloc; "remove\t{item}"),
        _ => format!(in alloc;
            "bookmark\t{parent}\t{place}\t{}\t{title}\t{date}",
            one_of(URLS, turn, 1)
        ),
    }
}

fn on_history(alloc: Global, turn: u32, last: Last) -> Result<String, AllocError> {
    let url = one_of(URLS, turn, 1);
    match drawn(turn, 0, 40) {
        0 | 1 => format!(in alloc; "title\t{url}\t{}", one_of(TITLES, turn, 6)),
        2..=5 => format!(in alloc; "unvisit\t{}", recent(last.visit, turn, 7)),
        6 => format!(in alloc; "forget\t{url}"),
        7 => format!(in alloc; "expire\t{}", near_day(turn, 8).wrapping_sub(80)),
        8 => format!(in alloc; "trim\t{}", drawn(turn, 9, 6).wrapping_add(6)),
        9 | 10 => format!(in alloc; "day\t{}", FIRST_DAY.wrapping_add(turn / 8)),
        _ => visit(alloc, turn, last),
    }
}

/// The line of a turn.
pub fn line_of(alloc: Global, turn: u32, last: Last) -> Result<String, AllocError> {
    let url = one_of(URLS, turn, 1);
    let tag = one_of(TAGS, turn, 15);
    match drawn(turn, 16, 20) {
        0..=3 => format!(in alloc; "tag\t{url}\t{tag}\t{}", date(turn, 3)),
        4 | 5 => format!(in alloc; "untag\t{url}\t{tag}"),
        6..=11 => on_items(alloc, turn, last),
        _ => on_history(alloc, turn, last),
    }
}

/// A bookmark file of pages that are known, of new ones, and of their tags.
pub const FILE: &str = "<!DOCTYPE NETSCAPE-Bookmark-file-1>\n<DL><p>\n\
    <DT><A HREF=\"https://a.example/\" ADD_DATE=\"1728000000\" TAGS=\"one,new\">A</A>\n\
    <DT><H3>F</H3>\n<DL><p>\n\
    <DT><A HREF=\"https://e.example/\" TAGS=\"TWO\">E</A>\n\
    <DT><A HREF=\"place:type=3\">Q</A>\n\
    <HR>\n\
    <DT><A HREF=\"https://e.example/1\">E</A>\n\
    <DT><A HREF=\"https://a.example/\" LAST_MODIFIED=\"1729000000\">A again</A>\n\
    </DL><p>\n</DL><p>\n";
