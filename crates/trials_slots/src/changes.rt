// Slots of which one byte is changed: they are read as another row, or refused.
ghost use Rattle.std.specs.Prelude.{◌<◌};
ghost use Rattle.pl_base.specs.Live.{slot_size};

use pl_slot::{SLOT_SIZE, SlotRow, decode, encode};
use std::process::Abort;

// A slot by its first bytes, the others of which are 0; how many values its byte 1 may have; and
// where its numbers lie, from a byte to before another.
struct Case {
    head: [u8; 16],
    marks: u32,
    fields: &'static [(usize, usize)],
}

const CASES: &[Case] = &[
    // a free slot
    Case {
        head: [0, 0, 0, 0, 1, 0, 0, 0, 0, 0, 0, 0, 0, 0, 0, 0],
        marks: 1,
        fields: &[(4, 8)],
    },
    // an origin
    Case {
        head: [1, 0, 0, 0, 1, 2, 3, 4, 5, 6, 7, 8, 9, 0, 0, 0],
        marks: 1,
        fields: &[(4, 20), (24, 32)],
    },
    // a hidden place
    Case {
        head: [2, 2, 0, 0, 1, 2, 3, 4, 5, 6, 7, 8, 9, 0, 0, 0],
        marks: 4,
        fields: &[(4, 60), (64, 76)],
    },
    // a visit by a bookmark
    Case {
        head: [3, 3, 0, 0, 1, 2, 3, 4, 5, 6, 7, 8, 9, 0, 0, 0],
        marks: 9,
        fields: &[(4, 56)],
    },
    // a folder
    Case {
        head: [4, 2, 0, 0, 1, 2, 3, 4, 5, 6, 7, 8, 9, 0, 0, 0],
        marks: 3,
        fields: &[(4, 72)],
    },
    // a text of four bytes, of which the last is not 0
    Case {
        head: [5, 4, 0, 0, 1, 2, 3, 4, 5, 6, 7, 8, 0, 0, 0, 0],
        marks: 117,
        fields: &[(4, 12)],
    },
];

// With how many values of a byte the slot is read. Each is another row, which has just these bytes.
fn count_read(rt: &impl Abort, row: &SlotRow, at: usize) -> u32
    requires { at < slot_size }
{
    let mut bytes = encode(row);
    let old = bytes[at];
    let mut count = 0;
    for value in 0..=255 {
        bytes[at] = value;
        let Some(other) = decode(&bytes) else {
            continue;
        };
        assert!(rt; encode(&other) == bytes, "byte {at}");
        assert!(rt; (other == *row) == (value == old), "byte {at}");
        count += 1;
    }
    count
}

fn lies_in(at: usize, fields: &[(usize, usize)]) -> bool {
    fields.iter().any(|field| field.0 <= at && at < field.1)
}

fn check_case(rt: &impl Abort, case: &Case) {
    let mut bytes = [0; SLOT_SIZE];
    bytes[..16].copy_from_slice(&case.head);
    let row = decode(&bytes);
    assert!(rt; row.is_some());
    let Some(row) = row else {
        return;
    };
    assert_eq!(rt; count_read(rt, &row, 1), case.marks, "{row:?}");
    for at in 2..SLOT_SIZE {
        let want = if lies_in(at, case.fields) { 256 } else { 1 };
        assert_eq!(rt; count_read(rt, &row, at), want, "byte {at} of {row:?}");
    }
}

#[test]
fn reads_another_row_or_none(rt: HostRuntime) {
    for case in CASES {
        check_case(&rt, case);
    }
}

#[test]
fn reads_six_kinds(rt: HostRuntime) {
    for kind in 6..=255 {
        let mut bytes = [0; SLOT_SIZE];
        bytes[0] = kind;
        assert!(rt; decode(&bytes).is_none(), "kind {kind}");
    }
}
