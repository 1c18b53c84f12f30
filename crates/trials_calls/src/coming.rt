// Ten thousand pages that come in a bookmark file, go, and come again.
ghost use Rattle.std.specs.Prelude.{◌≡◌, ◌<◌};

use pl_base::{ItemId, Rows, Steps, Touched};
use pl_linked::Linked;
use std::alloc::Global;
use std::marker::Brand;
use std::process::Abort;
use std::sync::ledger::{Blank, Ledger};
use std::test::Fail;
use trials_forms::GoodRows;

const PAGES: u32 = 10_000;

// A folder for each hundred bookmarks.
fn file(alloc: Global) -> Result<String, Fail> {
    let mut text = String::from_str(alloc, "<!DOCTYPE NETSCAPE-Bookmark-file-1>\n<DL><p>\n")?;
    for number in 0..PAGES {
        if number % 100 == 0 {
            text.push_str("</DL><p>\n<DT><H3>Folder</H3>\n<DL><p>\n")?;
        }
        let line = bookmark(alloc, number)?;
        text.push_str(line.as_str())?;
    }
    Ok(text)
}

// The line of a bookmark, with a URL of some sixty bytes on one of forty hosts.
fn bookmark(alloc: Global, number: u32) -> Result<String, Fail> {
    let host = number % 40;
    Ok(format!(in alloc;
        "<DT><A HREF=\"https://host{host}.example/a-path-of-forty-bytes-or-so/{number}.html\">\
        The title of bookmark {number}</A>\n"
    )?)
}

// All that is not a root goes.
fn emptied<L: Ledger>(
    good: GoodRows<Linked>,
    steps: &mut Steps<L>,
) -> Result<GoodRows<Linked>, Fail> {
    let mut good = good;
    for root in 2..=6 {
        good = good.without_items(ItemId(root), 2 * PAGES, steps)?;
    }
    good.without_pages(2 * PAGES, steps)
}

// A free slot names at most the next one.
fn is_free(slot: &[u8]) -> bool {
    slot.iter()
        .enumerate()
        .all(|(at, byte)| *byte == 0 || (4..8).contains(&at))
}

// A root has neither a title nor a date.
fn is_root(slot: &[u8]) -> bool {
    slot.starts_with(&[4, 2]) && slot.iter().skip(48).all(|byte| *byte == 0)
}

// How many slots of a page are roots, where all others are free.
fn roots(image: &[u8]) -> Option<u32> {
    let mut roots: u32 = 0;
    for slot in image.chunks(128) {
        if is_root(slot) {
            roots = roots.saturating_add(1);
        } else if !is_free(slot) {
            return None;
        }
    }
    Some(roots)
}

// The header has nothing but its fields.
fn is_bare_header(image: &[u8]) -> bool {
    image.starts_with(b"PLSTORE1") && image.iter().skip(68).all(|byte| *byte == 0)
}

// The page of the header, the page with the roots, and free slots.
fn is_clear(change: &Touched) -> bool {
    for index in 0..change.count() {
        let image = change.image(index);
        let clear = match change.page(index) {
            1 => is_bare_header(image),
            2 => roots(image) == Some(6),
            _ => roots(image) == Some(0),
        };
        if !clear {
            return false;
        }
    }
    true
}

// Every page but the gate's is listed.
fn is_whole(change: &Touched) -> bool {
    (change.count() as u64).checked_add(1) == Some(u64::from(change.after()))
}

fn come_and_go<L: Ledger>(rt: &impl Abort, alloc: Global, blank: Blank) -> Result<(), Fail>
    requires name { blank.name ≡ L.name }
    requires parts { blank.parts ≡ L.parts }
    requires some { 0 < blank.parts }
{
    let steps = &mut Steps::<L>::none(blank);
    let file = file(alloc)?;
    let good = GoodRows::over(alloc, Linked::opening(alloc)?);
    let opening = good.rows.live(steps);
    let good = good.import(file.as_str(), steps)?;
    let live = good.rows.live(steps);
    assert!(rt; live.saturating_sub(opening) > 4 * u64::from(PAGES));
    let (good, first) = good.touched(steps)?;
    let good = emptied(good, steps)?;
    assert_eq!(rt; good.rows.live(steps), opening);
    let (good, gone) = good.touched(steps)?;
    assert!(rt; is_whole(&gone) && is_clear(&gone));
    let good = good.import(file.as_str(), steps)?;
    assert_eq!(rt; good.rows.live(steps), live);
    let (_, again) = good.touched(steps)?;
    assert_eq!(rt; again.after(), first.after());
    Ok(())
}

#[test]
fn ten_thousand_pages_come_go_and_come_again(rt: HostRuntime) -> Result<(), Fail> {
    come_and_go::<Brand>(&rt, rt.alloc(), Blank::new(1))
}
