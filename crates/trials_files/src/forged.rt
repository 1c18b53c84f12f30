// The file that a script leaves, with fields changed as a forger would: it is refused.
ghost use Rattle.std.specs.Prelude.{◌≡◌, ◌<◌};

use crate::checked::day_of;
use Place::{Header, Slot};
use pl_base::{PAGE_SIZE, Steps};
use std::alloc::Global;
use std::marker::Brand;
use std::process::Abort;
use std::sync::ledger::{Blank, Ledger};
use std::test::Fail;
use trials_written::file_of;

// Page 1 has the visits 3 and 1, of which visit 2 to page 2 came as a redirect, and the tag `Red`,
// which is item 7 with the entry 8. Page 3 has the host of page 1. Item 9 is a folder in item 2.
//
// Items 1 to 6 stand in the slots 1 to 6. The origin of page 1, its URL, the page and visit 1 stand
// in 7 to 10, those of page 2 and visit 2 in 11 to 14, visit 3 in 15, the URL of page 3, the page
// and visit 4 in 16 to 18, the title of item 7 in 19, items 7 and 8 in 20 and 21, the title of item
// 9 and the item in 22 and 23. Slot 24 is free.
const SCRIPT: &[u8] = b"visit\thttps://a.example/\t2\t0\n\
    visit\thttps://b.example/y\t5\t1\t1\n\
    visit\thttps://a.example/\t1\t2\n\
    visit\thttps://a.example/x\t1\t3\n\
    tag\thttps://a.example/\tRed\t0\n\
    folder\t2\tend\tF\t0\n";

// A byte of the header, or one of a slot.
#[derive(Clone, Copy)]
enum Place {
    Header(u8),
    Slot(u8, u8),
}

impl Place {
    // Where it stands in the file: the header on page 1, and eight slots a page from page 2 on.
    fn byte(self) -> usize {
        match self {
            Header(at) => PAGE_SIZE + usize::from(at),
            Slot(slot, at) => 2 * PAGE_SIZE - 128 + 128 * usize::from(slot) + usize::from(at),
        }
    }
}

type Change = (Place, u8);

// What is forged, and the bytes for that.
const FORGED: &[(&str, &[Change])] = &[
    (
        "a form of another name",
        &[
            (Header(2), b'F'),
            (Header(3), b'L'),
            (Header(4), b'A'),
            (Header(5), b'T'),
            (Header(6), b'0'),
        ],
    ),
    ("a page more than the file has", &[(Header(8), 6)]),
    ("a free slot that names itself", &[(Slot(24, 4), 24)]),
    ("a free slot in no chain", &[(Header(28), 0)]),
    ("a live slot more than there are", &[(Header(64), 24)]),
    (
        "a visit in the chains of two pages",
        &[(Slot(13, 28), 10), (Slot(13, 32), 10)],
    ),
    (
        "visits with the earliest first",
        &[
            (Slot(9, 28), 10),
            (Slot(9, 32), 15),
            (Slot(10, 20), 0),
            (Slot(10, 24), 15),
            (Slot(15, 20), 10),
            (Slot(15, 24), 0),
        ],
    ),
    ("a last child before the end", &[(Slot(1, 32), 5)]),
    (
        "an item that is its own parent",
        &[
            (Slot(2, 28), 0),
            (Slot(2, 32), 0),
            (Slot(23, 16), 23),
            (Slot(23, 28), 23),
            (Slot(23, 32), 23),
        ],
    ),
    // The entry goes behind the folder in item 2.
    (
        "a tag without an entry",
        &[
            (Slot(20, 28), 0),
            (Slot(20, 32), 0),
            (Slot(21, 16), 2),
            (Slot(21, 20), 23),
            (Slot(23, 24), 21),
            (Slot(2, 32), 21),
        ],
    ),
    // The last byte of the URL of page 3 goes, which is then that of page 1.
    (
        "two pages of one URL",
        &[(Slot(16, 1), 18), (Slot(16, 26), 0), (Slot(17, 48), 18)],
    ),
    (
        "two origins of one prefix and host",
        &[(Slot(12, 16), b'a')],
    ),
    ("a frecency", &[(Slot(9, 64), 20)]),
    // 276 in place of 275, and 376 in place of 375.
    (
        "a frecency and the total with it",
        &[(Slot(9, 64), 20), (Slot(7, 24), 120)],
    ),
    // 100 in place of 2000, which its source was worth.
    (
        "a page that a redirect led to, as one by a link",
        &[
            (Slot(13, 64), 100),
            (Slot(13, 65), 0),
            (Slot(11, 24), 100),
            (Slot(11, 25), 0),
        ],
    ),
    // 2250 in place of 275, and 2350 in place of 375: visit 1 is worth 2000 and not 25.
    (
        "a page that a redirect left, as one that was typed",
        &[
            (Slot(9, 64), 202),
            (Slot(9, 65), 8),
            (Slot(7, 24), 46),
            (Slot(7, 25), 9),
        ],
    ),
    ("a number of visits", &[(Slot(9, 72), 3)]),
    ("a hidden mark", &[(Slot(13, 1), 2)]),
    ("a total", &[(Slot(11, 24), 209)]),
    ("a byte of no field", &[(Slot(10, 2), 1)]),
];

fn forge<L: Ledger>(rt: &impl Abort, alloc: Global, blank: Blank) -> Result<(), Fail>
    requires name { blank.name ≡ L.name }
    requires parts { blank.parts ≡ L.parts }
    requires some { 0 < blank.parts }
{
    let steps = &mut Steps::<L>::none(blank);
    let whole = file_of(alloc, SCRIPT, steps)?;
    assert_eq!(rt; day_of(alloc, whole, steps)?, Some(0));
    for (what, changes) in FORGED {
        let mut file = file_of(alloc, SCRIPT, steps)?;
        change(&mut file, changes);
        let day = day_of(alloc, file, steps)?;
        assert!(rt; day.is_none(), "{what}: taken");
    }
    Ok(())
}

fn change(file: &mut [u8], changes: &[Change]) {
    for (place, to) in changes {
        if let Some(byte) = file.get_mut(place.byte()) {
            *byte = *to;
        }
    }
}

#[test]
fn forged_files_are_refused(rt: HostRuntime) -> Result<(), Fail> {
    forge::<Brand>(&rt, rt.alloc(), Blank::new(1))
}
