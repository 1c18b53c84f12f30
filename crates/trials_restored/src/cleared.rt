// Rows that lose all bookmarks, folders, separators and tags.
ghost use Rattle.std.specs.Prelude.{◌≡◌, ◌<◌};
ghost use Rattle.pl_base.specs.Rows.{IsSound};

use crate::cases::FULL;
use crate::stores::rows_behind;
use pl_base::{ItemId, PageId, Rows, Steps};
use pl_linked::Linked;
use pl_plain::Flat;
use pl_tree::clear;
use std::alloc::Global;
use std::marker::Brand;
use std::process::Abort;
use std::sync::ledger::{Blank, Ledger};
use std::test::Fail;

// The lines of a store, the pages that lose an item, and the slots of what is left: those of
// origins, pages with URL and title, visits and the six items.
struct Case {
    lines: &'static [&'static str],
    pages: &'static [PageId],
    live: u64,
}

const CASES: &[Case] = &[
    Case {
        lines: &[],
        pages: &[],
        live: 6,
    },
    // The visited page has no item, and the last one has a tag alone.
    Case {
        lines: FULL,
        pages: &[PageId(2), PageId(3), PageId(4)],
        live: 3 + 9 + 1 + 6,
    },
    // In a folder and below each root, in another order than their pages, which have up to three.
    Case {
        lines: &[
            "visit\thttps://a.example/\t1\t0",
            "bookmark\t3\tend\thttps://b.example/\tB\t0",
            "folder\t2\tend\tF\t0",
            "bookmark\t8\tend\thttps://c.example/\tC\t0",
            "bookmark\t8\tend\thttps://b.example/\t\t0",
            "separator\t8\tend\t0",
            "folder\t5\tend\tG\t0",
            "bookmark\t6\tend\thttps://a.example/\t\t0",
            "tag\thttps://c.example/\tRed\t0",
            "tag\thttps://b.example/\tBlue\t0",
            "tag\thttps://d.example/\tblue\t0",
            "visit\thttps://e.example/\t1\t0",
        ],
        pages: &[PageId(1), PageId(2), PageId(3), PageId(4)],
        live: 5 + 10 + 2 + 6,
    },
];

fn expect_cleared<R: Rows + Drop, L: Ledger>(
    rt: &impl Abort,
    alloc: Global,
    rows: R,
    case: &Case,
    steps: &mut Steps<L>,
) -> Result<(), Fail>
    requires { IsSound (R.kept rows) }
{
    let mut rows = rows_behind(alloc, rows, case.lines, steps)?;
    let pages = clear(alloc, &mut rows, steps)?;
    assert_eq!(rt; pages.as_slice(), case.pages);
    for root in 2..=6 {
        assert_eq!(rt; rows.first_child(ItemId(root), steps), None);
    }
    assert_eq!(rt; rows.items(steps), 6);
    assert_eq!(rt; rows.live(steps), case.live);
    Ok(())
}

fn check<L: Ledger>(rt: &impl Abort, alloc: Global, blank: Blank) -> Result<(), Fail>
    requires name { blank.name ≡ L.name }
    requires parts { blank.parts ≡ L.parts }
    requires some { 0 < blank.parts }
{
    let mut steps = Steps::<L>::none(blank);
    for case in CASES {
        expect_cleared(rt, alloc, Flat::opening(alloc)?, case, &mut steps)?;
        expect_cleared(rt, alloc, Linked::opening(alloc)?, case, &mut steps)?;
    }
    Ok(())
}

#[test]
fn cleared_rows_tell_each_page_once(rt: HostRuntime) -> Result<(), Fail> {
    check::<Brand>(&rt, rt.alloc(), Blank::new(1))
}
