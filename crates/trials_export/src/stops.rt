// A stop of the machine in each call of an export, and each call failing; exports of files in which
// a stop left a change.
ghost use Rattle.std.specs.Prelude.{◌<◌};

use crate::desks::{WORKED_LINES, exported, imported, with_header};
use pl_desk::MemDesk;
use places::Status;
use std::alloc::Global;
use std::process::Abort;
use std::test::Fail;
use trials_desks::{WORKED, copied, done, run_on, said_text};

const EXPORT: &[&str] = &["export", "s"];

// What a stop leaves in the bytes that may hold anything.
const FILLERS: [u8; 3] = [0, 1, 255];

// Each byte that a call writes would be a filler in the file that a stop within it leaves.
#[test]
fn a_stop_leaves_the_file_as_it_was(rt: HostRuntime) -> Result<(), Fail> {
    let alloc = rt.alloc();
    let store = imported(alloc, WORKED.as_bytes())?;
    let desk = exported(alloc, &store)?;
    for call in 0..desk.calls() {
        assert_eq!(rt; desk.said_at(call), 0, "call {call}");
        for filler in FILLERS {
            let stopped = desk.stopped(alloc, call, filler)?;
            assert!(rt; stopped.bytes() == store.bytes(), "call {call}");
        }
    }
    Ok(())
}

// The opening makes nine calls, and one says the text.
#[test]
fn a_call_that_fails_leaves_the_file_as_it_was(rt: HostRuntime) -> Result<(), Fail> {
    let alloc = rt.alloc();
    let store = imported(alloc, WORKED.as_bytes())?;
    let text = with_header(alloc, WORKED_LINES)?;
    for call in 0..11 {
        let (ends, said) = if call < 9 {
            (Status::DeviceFault, "")
        } else if call == 9 {
            (Status::SayFault, "")
        } else {
            (Status::Done, text.as_str())
        };
        let mut desk = copied(alloc, &store, &[call])?;
        let status = run_on(alloc, EXPORT, b"", &mut desk);
        assert_eq!(rt; status, ends, "call {call}");
        assert_eq!(rt; said_text(&desk), said, "call {call}");
        assert!(rt; desk.bytes() == store.bytes(), "call {call}");
    }
    Ok(())
}

// A bookmark more, and its line: the first one of the menu.
const MORE: &[u8] = b"bookmark\t2\t0\thttps://d.example/\tE\t5000000\n";

const MORE_LINE: &str =
    "    <DT><A HREF=\"https://d.example/\" ADD_DATE=\"5\" LAST_MODIFIED=\"5\">E</A>\n";

// An export of the file that a stop left says one of the two texts, the later one where a byte of
// the command's reply was said, and from then on the file is at rest. A stop within that export
// leaves a file of which the same is said.
fn expect_either(
    rt: &impl Abort,
    alloc: Global,
    stopped: &MemDesk,
    filler: u8,
    texts: (&str, &str),
    begun: usize,
) -> Result<(), Fail> {
    let desk = exported(alloc, stopped)?;
    let text = said_text(&desk);
    assert!(rt;
        text == texts.1 || (text == texts.0 && begun == 0),
        "{begun} bytes said"
    );
    let again = exported(alloc, &desk)?;
    assert!(rt; said_text(&again) == text);
    assert!(rt; again.bytes() == desk.bytes());
    for call in 0..desk.calls() {
        let stopped_again = desk.stopped(alloc, call, filler)?;
        let last = exported(alloc, &stopped_again)?;
        assert!(rt; said_text(&last) == text, "call {call}");
    }
    Ok(())
}

#[test]
fn exports_what_a_stop_within_a_command_left(rt: HostRuntime) -> Result<(), Fail> {
    let alloc = rt.alloc();
    let store = imported(alloc, WORKED.as_bytes())?;
    let desk = done(alloc, &store, &["run", "s"], MORE)?;
    let before = with_header(alloc, WORKED_LINES)?;
    let lines = format!(in alloc; "{MORE_LINE}{WORKED_LINES}")?;
    let after = with_header(alloc, lines.as_str())?;
    let texts = (before.as_str(), after.as_str());
    for call in 0..desk.calls() {
        for filler in FILLERS {
            let stopped = desk.stopped(alloc, call, filler)?;
            let begun = desk.said_at(call);
            expect_either(&rt, alloc, &stopped, filler, texts, begun)?;
        }
    }
    Ok(())
}
