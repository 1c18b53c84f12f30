// A stop and a failure in each call of a run of one line, for each command that changes a store.
ghost use Rattle.std.specs.Prelude.{◌<◌, length};

use pl_base::PAGE_SIZE;
use pl_desk::MemDesk;
use places::Status;
use std::alloc::Global;
use std::process::Abort;
use std::test::Fail;
use trials_desks::{copied, done, run_on};

// Item 7 is the folder, 8 the bookmark in it, and 9 the separator; 10 and 11 are the tag's.
const LINES: &[&[u8]] = &[
    b"day\t19000\n",
    b"visit\thttps://a.example/\t2\t0\n",
    b"visit\thttps://b.example/\t5\t1\t1\n",
    b"visit\thttps://a.example/x\t1\t2\n",
    b"visit\thttps://c.example/\t1\t3\n",
    b"title\thttps://a.example/\tA title\n",
    b"folder\t5\tend\tF\t4\n",
    b"bookmark\t7\tend\thttps://a.example/x\tB\t5\n",
    b"separator\t7\tend\t6\n",
    b"retitle\t8\tC\t7\n",
    b"move\t9\t5\tend\t8\n",
    b"tag\thttps://a.example/\tRed\t9\n",
    b"untag\thttps://a.example/\tRed\n",
    b"unvisit\t2\n",
    b"forget\thttps://a.example/x\n",
    b"trim\t2\n",
    b"expire\t1\n",
    b"remove\t7\n",
    b"day\t19001\n",
];

/// What a stop leaves in the bytes that may hold anything.
pub const FILLERS: [u8; 3] = [0, 1, 255];

/// The pages of the store, as many as its header says: neither that of the gate nor the journal.
pub fn store_in(bytes: &[u8]) -> &[u8] {
    let pages = match bytes.get(PAGE_SIZE + 8..PAGE_SIZE + 12) {
        Some([a, b, c, d]) => u32::from_le_bytes([*a, *b, *c, *d]),
        _ => 0,
    };
    bytes
        .get(PAGE_SIZE..PAGE_SIZE * pages as usize)
        .unwrap_or(&[])
}

// Opened again, the file holds the store after the line, or before it if no reply was begun.
fn expect_either(
    rt: &impl Abort,
    alloc: Global,
    desk: &mut MemDesk,
    before: &[u8],
    after: &[u8],
    begun: bool,
) {
    let status = run_on(alloc, &["run", "s"], b"", desk);
    assert_eq!(rt; status, Status::Done);
    let held = store_in(desk.bytes());
    assert!(rt; held == store_in(after) || (!begun && held == store_in(before)));
}

fn stop_in(
    rt: &impl Abort,
    alloc: Global,
    before: &[u8],
    after: &MemDesk,
    call: u32,
) -> Result<(), Fail>
    requires { call < length after.now.calls }
{
    let begun = after.said_at(call) > 0;
    for filler in FILLERS {
        let mut stopped = after.stopped(alloc, call, filler)?;
        expect_either(rt, alloc, &mut stopped, before, after.bytes(), begun);
    }
    Ok(())
}

fn fail_in(
    rt: &impl Abort,
    alloc: Global,
    before: &[u8],
    after: &[u8],
    line: &[u8],
    call: u32,
) -> Result<(), Fail> {
    let mut failed = MemDesk::holding(alloc, before, &[call])?;
    let status = run_on(alloc, &["run", "s"], line, &mut failed);
    assert_ne!(rt; status, Status::Done);
    let begun = !failed.said().is_empty();
    let mut again = copied(alloc, &failed, &[])?;
    expect_either(rt, alloc, &mut again, before, after, begun);
    Ok(())
}

// The desk after a run of the line, in each of whose calls the machine stops, and the call fails.
fn run_line(rt: &impl Abort, alloc: Global, store: &MemDesk, line: &[u8]) -> Result<MemDesk, Fail> {
    let after = done(alloc, store, &["run", "s"], line)?;
    assert!(rt; store_in(after.bytes()) != store_in(store.bytes()));
    for call in 0..after.calls() {
        stop_in(rt, alloc, store.bytes(), &after, call)?;
        fail_in(rt, alloc, store.bytes(), after.bytes(), line, call)?;
    }
    Ok(after)
}

#[test]
fn each_command_is_done_or_not(rt: HostRuntime) -> Result<(), Fail> {
    let alloc = rt.alloc();
    let empty = MemDesk::holding(alloc, &[], &[])?;
    let mut store = done(alloc, &empty, &["new", "s"], b"")?;
    for line in LINES {
        store = run_line(&rt, alloc, &store, line)?;
    }
    Ok(())
}
