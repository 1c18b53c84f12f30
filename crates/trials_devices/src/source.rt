// Input in memory, in pieces and with reads that fail.
ghost use Rattle.std.specs.Prelude.{◌<◌, ◌≤◌, length, IfOk, OnErr};
ghost use Rattle.pl_desk.specs.Counts.{Rose};

use pl_desk::{Failed, MemSource, Source};
use std::process::Abort;
use std::test::Fail;

// Two reads through the bound.
fn read_twice<S: Source>(source: &mut S, out: &mut [u8]) -> Result<usize, Failed>
    requires { 0 < length out.old }
    ensures within { IfOk result (λ n. n ≤ length out.old) }
    ensures cause { OnErr result (Rose (S.faults source.old) (S.faults source.new)) }
{
    source.read(out)?;
    source.read(out)
}

// Each read gives these bytes, or fails where there are none.
fn expect_reads<S: Source>(
    rt: &impl Abort,
    source: &mut S,
    room: usize,
    expected: &[Option<&[u8]>],
) {
    let mut out = [0; 9];
    assert!(rt; 0 < room);
    assert!(rt; room <= out.len());
    for bytes in expected {
        let read = source.read(&mut out[..room]);
        assert_eq!(rt; read.ok().map(|len| &out[..len]), *bytes);
    }
}

// The longest piece, the room of the reader, the reads that fail, and what each read gives.
const READS: &[(usize, usize, &[u32], &[Option<&[u8]>])] = &[
    (
        1,
        4,
        &[1, 3],
        &[
            Some(b"a"),
            None,
            Some(b"b"),
            None,
            Some(b"c"),
            Some(b"d"),
            Some(b"e"),
            Some(b""),
        ],
    ),
    (
        3,
        4,
        &[0],
        &[None, Some(b"abc"), Some(b"de"), Some(b""), Some(b"")],
    ),
    (
        3,
        2,
        &[],
        &[Some(b"ab"), Some(b"cd"), Some(b"e"), Some(b"")],
    ),
    (
        8,
        4,
        &[1, 2],
        &[Some(b"abcd"), None, None, Some(b"e"), Some(b"")],
    ),
    (8, 9, &[], &[Some(b"abcde"), Some(b"")]),
];

#[test]
fn bytes_come_in_pieces(rt: HostRuntime) -> Result<(), Fail> {
    for (piece, room, fails, expected) in READS {
        let mut source = MemSource::over(rt.alloc(), b"abcde", *piece, fails)?;
        expect_reads(&rt, &mut source, *room, expected);
    }
    Ok(())
}

#[test]
fn a_second_read_fails(rt: HostRuntime) -> Result<(), Fail> {
    let mut out = [0; 3];
    let mut source = MemSource::over(rt.alloc(), b"abc", 3, &[1])?;
    assert_eq!(rt; read_twice(&mut source, &mut out), Err(Failed));
    Ok(())
}
