// The file of the store before its first command, with one byte changed: it is refused, or stands
// for a store of this day.
ghost use Rattle.std.specs.Prelude.{◌≡◌, ◌<◌};

use crate::checked::day_of;
use pl_base::{NoMemory, Steps};
use std::alloc::Global;
use std::marker::Brand;
use std::process::Abort;
use std::sync::ledger::{Blank, Ledger};
use std::test::Fail;
use trials_written::file_of;

// A place in the file, the byte that is put there, and the day of the store, if there is one. Page
// 1 begins at 1024 with the header, and page 2 at 2048 with eight slots of 128 bytes: the six
// roots, and two that are free.
const CASES: &[(usize, u8, Option<u32>)] = &[
    // Page 0 is not looked at.
    (0, 7, Some(0)),
    (1023, 255, Some(0)),
    // The name of the form, and the length in pages.
    (1024, b'Q', None),
    (1031, b'2', None),
    (1032, 2, None),
    (1032, 4, None),
    // Another day, and one behind the last.
    (1036, 1, Some(1)),
    (1039, 255, None),
    // The next ids of pages, visits and items.
    (1040, 0, None),
    (1040, 9, Some(0)),
    (1044, 0, None),
    (1048, 6, None),
    (1048, 8, Some(0)),
    // The first free slot, and the ends of the chains of rows.
    (1052, 0, None),
    (1052, 8, None),
    (1056, 1, None),
    (1080, 2, None),
    (1084, 5, None),
    // How many slots are live, and the bytes behind the fields.
    (1088, 7, None),
    (1092, 1, None),
    (2047, 1, None),
    // Slot 1: what it is, and which kind of item.
    (2048, 3, None),
    (2048, 7, None),
    (2049, 1, None),
    (2049, 4, None),
    (2050, 1, None),
    // The slots beside it, its id, its parent, and its siblings.
    (2052, 2, None),
    (2056, 3, None),
    (2060, 2, None),
    (2064, 1, None),
    (2068, 2, None),
    (2072, 2, None),
    // Its first and last child, its page, and the items beside it that have the same page.
    (2076, 3, None),
    (2080, 5, None),
    (2084, 2, None),
    (2088, 2, None),
    (2092, 2, None),
    // Its title, its dates, and a byte that no item uses.
    (2096, 7, None),
    (2100, 1, None),
    (2104, 1, None),
    (2112, 1, None),
    (2120, 1, None),
    // Slot 2: another parent, and another sibling.
    (2192, 3, None),
    (2200, 4, None),
    // Slots 7 and 8: what they are, the next free slot, and the bytes behind it.
    (2816, 9, None),
    (2820, 0, None),
    (2820, 7, None),
    (2824, 1, None),
    (2948, 7, None),
    (3071, 1, None),
];

// The bytes of the file.
fn opening<L: Ledger>(alloc: Global, steps: &mut Steps<L>) -> Result<Vec<u8>, NoMemory> {
    file_of(alloc, b"", steps)
}

fn change_bytes<L: Ledger>(rt: &impl Abort, alloc: Global, blank: Blank) -> Result<(), Fail>
    requires name { blank.name ≡ L.name }
    requires parts { blank.parts ≡ L.parts }
    requires some { 0 < blank.parts }
{
    let steps = &mut Steps::<L>::none(blank);
    for (place, byte, day) in CASES {
        let mut file = opening(alloc, steps)?;
        if let Some(changed) = file.get_mut(*place) {
            *changed = *byte;
        }
        assert_eq!(rt; day_of(alloc, file, steps)?, *day);
    }
    Ok(())
}

// Lengths to which the file is cut.
const CUT: &[usize] = &[0, 1, 1023, 1024, 2047, 2048, 3071];

// The store's pages stand at the beginning of the file, and what is behind them is free.
fn change_length<L: Ledger>(rt: &impl Abort, alloc: Global, blank: Blank) -> Result<(), Fail>
    requires name { blank.name ≡ L.name }
    requires parts { blank.parts ≡ L.parts }
    requires some { 0 < blank.parts }
{
    let steps = &mut Steps::<L>::none(blank);
    let whole = opening(alloc, steps)?;
    assert_eq!(rt; whole.len(), 3072);
    assert_eq!(rt; day_of(alloc, whole, steps)?, Some(0));
    for length in CUT {
        let mut short = opening(alloc, steps)?;
        short.truncate(*length);
        assert_eq!(rt; day_of(alloc, short, steps)?, None);
    }
    let mut long = opening(alloc, steps)?;
    long.push(1)?;
    assert_eq!(rt; day_of(alloc, long, steps)?, Some(0));
    Ok(())
}

#[test]
fn a_byte_changes_the_opening_file(rt: HostRuntime) -> Result<(), Fail> {
    change_bytes::<Brand>(&rt, rt.alloc(), Blank::new(1))
}

#[test]
fn the_opening_file_is_taken_whole(rt: HostRuntime) -> Result<(), Fail> {
    change_length::<Brand>(&rt, rt.alloc(), Blank::new(1))
}
