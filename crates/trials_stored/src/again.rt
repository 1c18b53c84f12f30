// A stop in each call of a run, a second one in each call of the run that opens what it left, and
// what a third run finds then.
ghost use Rattle.std.specs.Prelude.{◌<◌};

use crate::each_command::{FILLERS, store_in};
use pl_desk::MemDesk;
use std::alloc::Global;
use std::process::Abort;
use std::test::Fail;
use trials_desks::{done, new_store};

const RUN: &[&str] = &["run", "s"];

// A typed visit, a redirect from it, and a line that changes nothing.
const LINES: [&[u8]; 3] = [
    b"visit\thttps://a.example/\t2\t0\n",
    b"visit\thttps://b.example/\t5\t1\t1\n",
    b"page\thttps://a.example/\n",
];

fn script(alloc: Global) -> Result<Vec<u8>, Fail> {
    let mut script = Vec::new(alloc);
    for line in LINES {
        script.extend_from_slice(line)?;
    }
    Ok(script)
}

// How many lines were answered with so many bytes said. Each reply is one line.
fn answered(said: &[u8], len: usize) -> usize {
    said.iter().take(len).filter(|byte| **byte == b'\n').count()
}

// A stop in each call of the run that opened the file leaves the store that it holds.
fn expect_kept(rt: &impl Abort, alloc: Global, opened: &MemDesk) -> Result<(), Fail> {
    let held = store_in(opened.bytes());
    for call in 0..opened.calls() {
        for filler in FILLERS {
            let stopped = opened.stopped(alloc, call, filler)?;
            let again = done(alloc, &stopped, RUN, b"")?;
            assert!(rt; store_in(again.bytes()) == held, "call {call}");
        }
    }
    Ok(())
}

// Opened again, the file that a stop left holds the store after the lines that were answered, or
// after one more. These are the stores after none of the lines and after each.
fn expect_held(
    rt: &impl Abort,
    alloc: Global,
    stopped: &MemDesk,
    answered: usize,
    stores: &[&[u8]],
) -> Result<(), Fail> {
    let opened = done(alloc, stopped, RUN, b"")?;
    let held = store_in(opened.bytes());
    let mut either = stores.iter().skip(answered).take(2);
    assert!(rt;
        either.any(|store| *store == held),
        "{answered} lines answered"
    );
    expect_kept(rt, alloc, &opened)
}

// The same of a stop in each call of the run of all lines.
fn stop_twice(rt: &impl Abort, alloc: Global, filler: u8) -> Result<(), Fail> {
    let none = new_store(alloc, &[])?;
    let one = done(alloc, &none, RUN, LINES[0])?;
    let two = done(alloc, &one, RUN, LINES[1])?;
    let last = store_in(two.bytes());
    let stores = [store_in(none.bytes()), store_in(one.bytes()), last, last];
    let desk = done(alloc, &none, RUN, &script(alloc)?)?;
    for call in 0..desk.calls() {
        let answered = answered(desk.said(), desk.said_at(call));
        let stopped = desk.stopped(alloc, call, filler)?;
        expect_held(rt, alloc, &stopped, answered, &stores)?;
    }
    Ok(())
}

#[test]
fn a_stop_within_an_opening_leaves_the_store_that_was_read(rt: HostRuntime) -> Result<(), Fail> {
    stop_twice(&rt, rt.alloc(), FILLERS[0])
}

#[test]
fn and_with_other_bytes_where_any_may_be(rt: HostRuntime) -> Result<(), Fail> {
    stop_twice(&rt, rt.alloc(), FILLERS[1])
}

#[test]
fn and_with_the_last_ones(rt: HostRuntime) -> Result<(), Fail> {
    stop_twice(&rt, rt.alloc(), FILLERS[2])
}
