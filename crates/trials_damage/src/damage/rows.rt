// One damage each: the file is refused.
use super::*;

// What is damaged, and the bytes for that.
type Damage = (&'static str, &'static [Change]);

// Of the file behind the first lines.
const OF_SHORT_FILE: &[Damage] = &[
    (
        "a form of another name",
        &[
            (Header(2), b'F'),
            (Header(3), b'L'),
            (Header(4), b'A'),
            (Header(5), b'T'),
            (Header(6), b'0'),
        ],
    ),
    ("a page more than the file has", &[(Header(8), 8)]),
    ("a page fewer than the store has", &[(Header(8), 3)]),
    ("a journal past the end", &[(At(0), 1), (At(10), 1)]),
    ("an entry for page 0", &[(At(0), 1), (At(4_096), 0)]),
    ("two entries for one page", &[(At(0), 1), (At(5_128), 1)]),
    ("a free slot that names itself", &[(Slot(16, 4), 16)]),
    ("free slots in a ring", &[(Slot(16, 4), 15)]),
    ("a last free slot in no chain", &[(Slot(15, 4), 0)]),
    ("a first free slot in no chain", &[(Header(28), 16)]),
    (
        "a visit behind that of another page",
        &[(Slot(13, 32), 10), (Slot(14, 24), 10)],
    ),
    (
        "the same, which names that one before it",
        &[(Slot(13, 32), 10), (Slot(14, 24), 10), (Slot(10, 20), 14)],
    ),
    (
        "a visit as the only one of another page",
        &[(Slot(13, 28), 10), (Slot(13, 32), 10)],
    ),
    ("a last child before the end", &[(Slot(1, 32), 5)]),
    ("a frecency that is one more", &[(Slot(9, 64), 26)]),
    ("a frecency that is one less", &[(Slot(9, 64), 24)]),
    (
        "a frecency and the total that are one more",
        &[(Slot(9, 64), 26), (Slot(7, 24), 26)],
    ),
    ("a count that is one more", &[(Slot(9, 72), 2)]),
    ("a count that is one less", &[(Slot(9, 72), 0)]),
    ("a page that is not hidden", &[(Slot(9, 1), 1)]),
    ("a page that is hidden", &[(Slot(13, 1), 2)]),
    ("a total that is one more", &[(Slot(7, 24), 26)]),
    ("a total that is one less", &[(Slot(7, 24), 24)]),
    ("a live slot more", &[(Header(64), 15)]),
    ("a live slot less", &[(Header(64), 13)]),
    ("byte 2 of an item", &[(Slot(1, 2), 1)]),
    ("byte 2 of an origin", &[(Slot(7, 2), 1)]),
    ("byte 2 of a text", &[(Slot(8, 2), 1)]),
    ("byte 2 of a page", &[(Slot(9, 2), 1)]),
    ("byte 2 of a visit", &[(Slot(10, 2), 1)]),
    ("byte 2 of a free slot", &[(Slot(15, 2), 1)]),
];

// Of the file behind all lines.
const OF_LONGER_FILE: &[Damage] = &[
    (
        "visits with the earliest first",
        &[
            (Slot(9, 28), 10),
            (Slot(9, 32), 15),
            (Slot(10, 20), 0),
            (Slot(10, 24), 15),
            (Slot(15, 20), 10),
            (Slot(15, 24), 0),
        ],
    ),
    (
        "an item that is its own parent",
        &[
            (Slot(2, 28), 0),
            (Slot(2, 32), 0),
            (Slot(27, 16), 27),
            (Slot(27, 28), 27),
            (Slot(27, 32), 27),
        ],
    ),
    // The entry goes behind the folder in item 2.
    (
        "a tag without an entry",
        &[
            (Slot(24, 28), 0),
            (Slot(24, 32), 0),
            (Slot(25, 16), 2),
            (Slot(25, 20), 27),
            (Slot(27, 24), 25),
            (Slot(2, 32), 25),
        ],
    ),
    // The last byte of the URL of page 3 goes, which is then that of page 1.
    (
        "two pages of one URL",
        &[(Slot(16, 1), 18), (Slot(16, 26), 0), (Slot(17, 48), 18)],
    ),
    (
        "two origins of one prefix and host",
        &[(Slot(20, 16), b'a')],
    ),
];

fn expect_damaged(
    rt: &impl Abort,
    alloc: Global,
    file: &[u8],
    damages: &[Damage],
) -> Result<(), Fail> {
    for (what, changes) in damages {
        let bytes = changed(alloc, file, changes)?;
        assert!(rt; bytes.as_slice() != file, "{what}: no other file");
        expect_refused(rt, alloc, what, &bytes)?;
    }
    Ok(())
}

// What is cut, the length that is left, and the bytes that are changed then.
const CUT: &[(&str, usize, &[Change])] = &[
    ("a byte less than a page", 1_023, &[]),
    ("page 0 alone", 1_024, &[]),
    ("a byte less than the store", 4_095, &[]),
    ("a page more than is left", 4_096, &[(Header(8), 5)]),
];

#[test]
fn cut_files_are_refused(rt: HostRuntime) -> Result<(), Fail> {
    let alloc = rt.alloc();
    let short = short_file(alloc)?;
    for (what, length, changes) in CUT {
        let mut bytes = changed(alloc, short.bytes(), changes)?;
        bytes.truncate(*length);
        expect_refused(&rt, alloc, what, &bytes)?;
    }
    Ok(())
}

#[test]
fn damaged_files_are_refused(rt: HostRuntime) -> Result<(), Fail> {
    let alloc = rt.alloc();
    let short = short_file(alloc)?;
    expect_opened(&rt, alloc, "the file", short.bytes(), OF_SHORT)?;
    expect_damaged(&rt, alloc, short.bytes(), OF_SHORT_FILE)
}

#[test]
fn damaged_files_of_more_rows_are_refused(rt: HostRuntime) -> Result<(), Fail> {
    let alloc = rt.alloc();
    let longer = longer_file(alloc)?;
    expect_opened(&rt, alloc, "the file", longer.bytes(), OF_MORE)?;
    expect_damaged(&rt, alloc, longer.bytes(), OF_LONGER_FILE)
}
