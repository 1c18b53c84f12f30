// The ends of lines, and lines that are too long.
use super::{expect_said, tried};
use std::alloc::{AllocError, Global};
use std::test::Fail;

const VISITED: &[u8] = b"visit\t1\tpage\t1\tfrecency\t100\n";

const LINES: &[(&[u8], &[u8])] = &[
    (b"\n", b""),
    (b"\r\n", b""),
    (b"#\n", b""),
    (b"\r", b"refused\t14\t1\n"),
    (b"visit\r\r\n", b"refused\t14\t1\n"),
    (b"visit\n", b"refused\t14\t6\n"),
    (b"visit", b"refused\t14\t6\n"),
    (b"visit\thttps://a.example/\t1\r\n", b"refused\t14\t27\n"),
    (b"visit\thttps://a.example/\t1\t0\r", b"refused\t14\t28\n"),
    (b"visit\thttps://a.example/\t1\t0\n", VISITED),
    (b"visit\thttps://a.example/\t1\t0\r\n", VISITED),
    (b"visit\thttps://a.example/\t1\t0", VISITED),
    // The address is one whose visits are not recorded.
    (b"visit\tabout:blank\t1\t0\n", b"refused\t2\n"),
    (b"visit\tJavaScript:void(0)\t1\t0\n", b"refused\t2\n"),
    // A byte that is in no UTF-8, within an address and before its first character.
    (
        b"visit\thttps://a.example/\xff\t1\t0\n",
        b"refused\t14\t7\n",
    ),
    (b"title\t\xffhttps://a.example/\tA\n", b"refused\t14\t7\n"),
];

#[test]
fn ends_lines(rt: HostRuntime) {
    for (script, said) in LINES {
        expect_said(&rt, tried(rt.alloc(), script, 4096), said);
    }
}

// A start, one byte so many times, and an end.
fn line(alloc: Global, start: &[u8], len: usize, end: &[u8]) -> Result<Vec<u8>, AllocError> {
    let mut bytes = vec![in alloc; b'x'; len]?;
    let mut line = start.to_vec(alloc)?;
    line.extend_from_slice(&bytes)?;
    line.extend_from_slice(end)?;
    bytes.clear();
    Ok(line)
}

// What a line begins with, how many bytes follow, how it ends, and what is said.
const LONG_LINES: &[(&[u8], usize, &[u8], &[u8])] = &[
    (b"", 262_144, b"\n", b"refused\t14\t1\n"),
    (b"", 262_144, b"\r\n", b"refused\t14\t1\n"),
    (b"", 262_145, b"\n", b"refused\t14\t262145\n"),
    (b"", 262_145, b"\r\n", b"refused\t14\t262145\n"),
    (
        b"",
        262_145,
        b"\nvisit\thttps://www.mozilla.org/\t1\t0\n",
        b"refused\t14\t262145\nvisit\t1\tpage\t1\tfrecency\t100\n",
    ),
    (b"", 262_144, b"\r", b"refused\t14\t262145\n"),
    (b"", 600_000, b"", b"refused\t14\t262145\n"),
    (b"visit\t", 262_138, b"\n", b"refused\t14\t262145\n"),
    (
        b"visit\tdata:",
        262_132,
        b"\t1\t0\n",
        b"refused\t14\t262145\n",
    ),
    (b"#", 600_000, b"\nfrob", b"refused\t14\t1\n"),
];

#[test]
fn refuses_long_lines_and_goes_on(rt: HostRuntime) -> Result<(), Fail> {
    for (start, len, end, said) in LONG_LINES {
        let script = line(rt.alloc(), start, *len, end)?;
        expect_said(&rt, tried(rt.alloc(), &script, 65_536), said);
    }
    Ok(())
}

const TITLED: &[u8] = b"visit\thttps://a.example/\t1\t0\ntitle\thttps://a.example/\t";

const SAID: &[u8] =
    b"visit\t1\tpage\t1\tfrecency\t100\nok\npage\t1\t100\t1\t0\t0\t0\t0\thttps://a.example/\t";

// How many bytes a title begins with, what stands behind them and the line, and how many bytes are
// kept, with what is said behind them.
const TITLES: &[(usize, &[u8], usize, &[u8])] = &[
    (4_096, b"\npage\thttps://a.example/\n", 4_096, b"\t\n"),
    (262_000, b"\npage\thttps://a.example/\n", 4_096, b"\t\n"),
    // A character of two bytes within the limit, and one across it.
    (
        4_094,
        b"\xc3\xa9\npage\thttps://a.example/\n",
        4_094,
        b"\xc3\xa9\t\n",
    ),
    (
        4_095,
        b"\xc3\xa9y\npage\thttps://a.example/\n",
        4_095,
        b"\t\n",
    ),
];

#[test]
fn cuts_titles_between_characters(rt: HostRuntime) -> Result<(), Fail> {
    let alloc = rt.alloc();
    for (len, behind, kept, end) in TITLES {
        let script = line(alloc, TITLED, *len, behind)?;
        let said = line(alloc, SAID, *kept, end)?;
        expect_said(&rt, tried(alloc, &script, 65_536), &said);
    }
    Ok(())
}
