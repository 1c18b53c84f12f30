// A stop of the machine in each call of a drill, and each call failing: the store after some of its
// lines, and the one after all of them once a byte of the summary was said.
ghost use Rattle.std.specs.Prelude.{◌<◌};

use pl_desk::MemDesk;
use places::Status;
use std::alloc::Global;
use std::process::Abort;
use std::test::Fail;
use trials_desks::{copied, done, new_store, run_on, said_text};

// Five lines behind the first: a visit, a bookmark, a visit, the next day and a bookmark.
const DRILL: &[&str] = &["drill", "s", "5", "1"];

// What `stats` tells of the store after none of the lines and after each. The lines that say a day
// change nothing that it tells.
const TOLD: [&str; 5] = [
    "stats\tpages\t0\tvisits\t0\titems\t6\torigins\t0\tsum\t0\tslots\t6\n",
    "stats\tpages\t1\tvisits\t1\titems\t6\torigins\t0\tsum\t0\tslots\t10\n",
    "stats\tpages\t2\tvisits\t1\titems\t7\torigins\t1\tsum\t140\tslots\t15\n",
    "stats\tpages\t3\tvisits\t2\titems\t7\torigins\t1\tsum\t140\tslots\t19\n",
    "stats\tpages\t4\tvisits\t2\titems\t8\torigins\t1\tsum\t280\tslots\t23\n",
];

// What `stats` tells of the file that a desk holds.
fn told(alloc: Global, desk: &MemDesk) -> Result<MemDesk, Fail> {
    done(alloc, desk, &["run", "s"], b"stats\n")
}

// The file holds the store after some of the lines, and after all where something was said.
fn expect_some(rt: &impl Abort, alloc: Global, desk: &MemDesk, begun: usize) -> Result<(), Fail> {
    let desk = told(alloc, desk)?;
    let text = said_text(&desk);
    let is_last = text == TOLD[4];
    assert!(rt;
        is_last || begun == 0 && TOLD.contains(&text),
        "{begun} bytes said, {text}"
    );
    Ok(())
}

#[test]
fn a_stop_leaves_some_of_the_lines(rt: HostRuntime) -> Result<(), Fail> {
    let alloc = rt.alloc();
    let mut desk = new_store(alloc, &[])?;
    let status = run_on(alloc, DRILL, b"", &mut desk);
    assert_eq!(rt; status, Status::Done);
    for call in 0..desk.calls() {
        for filler in [0, 1, 255] {
            let stopped = desk.stopped(alloc, call, filler)?;
            expect_some(&rt, alloc, &stopped, desk.said_at(call))?;
        }
    }
    Ok(())
}

#[test]
fn a_call_that_fails_leaves_some_of_the_lines(rt: HostRuntime) -> Result<(), Fail> {
    let alloc = rt.alloc();
    let mut whole = new_store(alloc, &[])?;
    run_on(alloc, DRILL, b"", &mut whole);
    let calls = whole.calls();
    for call in 0..calls {
        let mut desk = new_store(alloc, &[call])?;
        let status = run_on(alloc, DRILL, b"", &mut desk);
        let ends = if call + 1 < calls {
            Status::DeviceFault
        } else {
            Status::SayFault
        };
        assert_eq!(rt; status, ends, "call {call}");
        let left = copied(alloc, &desk, &[])?;
        expect_some(&rt, alloc, &left, desk.said().len())?;
    }
    Ok(())
}
