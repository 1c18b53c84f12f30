// The desks in memory: what their calls do, and what a stop within each of them leaves.
ghost use Rattle.std.specs.Prelude.{◌≡◌};
ghost use Rattle.pl_desk.specs.Counts.{after_write, after_device_fault};

use pl_base::NoMemory;
use pl_desk::{Desk, Failed, MemDesk, QuickDesk};
use std::alloc::Global;
use std::process::Abort;
use std::test::Fail;

// A call, through the bound.
enum Step<'a> {
    Len,
    Write(u64, &'a [u8]),
    Sync,
    Say(&'a [u8]),
}

fn write<D: Desk>(rt: &impl Abort, desk: &mut D, at: u64, bytes: &[u8]) -> bool {
    assert!(rt; at < 100);
    assert!(rt; bytes.len() < 100);
    desk.write_at(at, bytes).is_ok()
}

fn say<D: Desk>(rt: &impl Abort, desk: &mut D, bytes: &[u8]) -> bool {
    assert!(rt; !bytes.is_empty());
    desk.say(bytes).is_ok()
}

// Whether the call succeeded.
fn perform<D: Desk>(rt: &impl Abort, desk: &mut D, step: &Step) -> bool {
    match step {
        Step::Len => desk.len().is_ok(),
        Step::Write(at, bytes) => write(rt, desk, *at, bytes),
        Step::Sync => desk.sync().is_ok(),
        Step::Say(bytes) => say(rt, desk, bytes),
    }
}

// The pattern with the filler for each `?`.
fn filled(alloc: Global, pattern: &[u8], filler: u8) -> Result<Vec<u8>, NoMemory> {
    let mut bytes = Vec::from_slice(alloc, pattern)?;
    for byte in bytes.iter_mut() {
        if *byte == b'?' {
            *byte = filler;
        }
    }
    Ok(bytes)
}

// A stop within the call leaves these bytes, where `?` stands for the filler.
fn expect_stop(
    rt: &impl Abort,
    alloc: Global,
    desk: &MemDesk,
    call: u32,
    filler: u8,
    pattern: &[u8],
) -> Result<(), NoMemory> {
    assert!(rt; call < desk.calls());
    let stopped = desk.stopped(alloc, call, filler)?;
    let expected = filled(alloc, pattern, filler)?;
    assert_eq!(rt; stopped.bytes(), expected.as_slice());
    assert_eq!(rt; stopped.said(), b"".as_slice());
    assert_eq!(rt; stopped.calls(), 0);
    Ok(())
}

// Each call: whether it succeeds, the bytes of the file after it, how many bytes had been said when
// it began, and what a stop within it leaves.
const RUN: &[(Step, bool, &[u8], usize, &[u8])] = &[
    (Step::Write(1, b"XY"), true, b"aXYd", 0, b"a??d"),
    (Step::Say(b"hi"), true, b"aXYd", 0, b"a??d"),
    (Step::Write(6, b"Z"), true, b"aXYd\0\0Z", 2, b"a??d???"),
    (Step::Sync, true, b"aXYd\0\0Z", 2, b"a??d???"),
    (Step::Len, true, b"aXYd\0\0Z", 2, b"aXYd\0\0Z"),
    (Step::Write(0, b"Q"), true, b"QXYd\0\0Z", 2, b"?XYd\0\0Z"),
    (Step::Write(3, b"RS"), false, b"QXYd\0\0Z", 2, b"?XY??\0Z"),
    (Step::Sync, false, b"QXYd\0\0Z", 2, b"?XY??\0Z"),
    (Step::Say(b"no"), false, b"QXYd\0\0Z", 2, b"?XY??\0Z"),
    (
        Step::Write(8, b"T"),
        true,
        b"QXYd\0\0Z\0T",
        2,
        b"?XY??\0Z??",
    ),
    (Step::Sync, true, b"QXYd\0\0Z\0T", 2, b"?XY??\0Z??"),
    (Step::Say(b"!"), true, b"QXYd\0\0Z\0T", 2, b"QXYd\0\0Z\0T"),
];

fn perform_all(rt: &impl Abort, desk: &mut MemDesk) {
    for (step, succeeds, bytes, said_len, _) in RUN {
        assert_eq!(rt; desk.said().len(), *said_len);
        assert_eq!(rt; perform(rt, desk, step), *succeeds);
        assert_eq!(rt; desk.bytes(), *bytes);
    }
}

fn expect_all_stops(rt: &impl Abort, alloc: Global, desk: &MemDesk) -> Result<(), NoMemory> {
    for (call, (_, _, _, said_len, pattern)) in RUN.iter().enumerate() {
        let call = call as u32;
        assert!(rt; call < desk.calls());
        assert_eq!(rt; desk.said_at(call), *said_len);
        for filler in [0, 1, 255] {
            expect_stop(rt, alloc, desk, call, filler, pattern)?;
        }
    }
    Ok(())
}

#[test]
fn a_stop_leaves_what_the_disk_may_hold(rt: HostRuntime) -> Result<(), Fail> {
    let mut desk = MemDesk::holding(rt.alloc(), b"abcd", &[6, 7, 8])?;
    perform_all(&rt, &mut desk);
    assert_eq!(rt; desk.said(), b"hi!".as_slice());
    assert_eq!(rt; desk.calls(), 12);
    expect_all_stops(&rt, rt.alloc(), &desk)?;
    Ok(())
}

#[test]
fn a_read_gives_the_bytes_in_its_range(rt: HostRuntime) -> Result<(), Fail> {
    let mut desk = MemDesk::holding(rt.alloc(), b"abcd", &[1])?;
    let mut out = [0; 2];
    assert!(rt; desk.bytes().len() == 4);
    assert_eq!(rt; desk.read_at(1, &mut out), Ok(()));
    assert_eq!(rt; out, *b"bc");
    assert!(rt; desk.bytes().len() == 4);
    assert_eq!(rt; desk.read_at(2, &mut out), Err(Failed));
    assert_eq!(rt; out, *b"bc");
    assert_eq!(rt; desk.len(), Ok(4));
    Ok(())
}

// Bytes behind a gap are written and read back, and a read past the end fails: so many bytes and
// one fault are counted.
fn write_and_read(rt: &impl Abort, desk: &mut QuickDesk)
    ensures { desk.new.counts ≡ after_device_fault (after_write desk.old.counts 2) }
{
    let mut out = [9; 4];
    assert!(rt; desk.write_at(2, b"ab").is_ok());
    assert!(rt; desk.read_at(0, &mut out).is_ok());
    assert_eq!(rt; out, *b"\0\0ab");
    assert!(rt; desk.read_at(1, &mut out).is_err());
    assert_eq!(rt; out, *b"\0\0ab");
}

#[test]
fn a_quick_desk_holds_what_is_written_and_said(rt: HostRuntime) -> Result<(), Fail> {
    let mut desk = QuickDesk::new(rt.alloc());
    write_and_read(&rt, &mut desk);
    assert!(rt; write(&rt, &mut desk, 1, b"x"));
    assert!(rt; say(&rt, &mut desk, b"hi"));
    assert!(rt; say(&rt, &mut desk, b"!"));
    assert_eq!(rt; desk.said(), b"hi!".as_slice());
    assert!(rt; desk.sync().is_ok());
    assert_eq!(rt; desk.len(), Ok(4));
    Ok(())
}
