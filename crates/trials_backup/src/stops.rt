// A stop of the machine in each call of a backup, and each call failing; backups of files in which
// a stop left a change.
use crate::desks::{backed_up, backup_of};
use pl_desk::MemDesk;
use places::Status;
use std::alloc::Global;
use std::process::Abort;
use std::test::Fail;
use trials_desks::{copied, done, new_store, run_on, said_text};

// What a stop leaves in the bytes that may hold anything.
const FILLERS: [u8; 3] = [0, 1, 255];

// A line, and the values of the menu behind it.
const FIRST: &[u8] = b"separator\t2\tend\t5\n";

const FIRST_MENU: &str = "{\"dateAdded\":5,\"lastModified\":5,\"title\":\"\",\
    \"type\":\"text/x-moz-place-separator\",\"typeCode\":3}";

// One line more.
const MORE: &[u8] = b"folder\t2\t0\tF\t6\n";

const MORE_MENU: &str = "{\"children\":[],\"dateAdded\":6,\"lastModified\":6,\"title\":\"F\",\
    \"type\":\"text/x-moz-place-container\",\"typeCode\":2},\
    {\"dateAdded\":5,\"lastModified\":5,\"title\":\"\",\
    \"type\":\"text/x-moz-place-separator\",\"typeCode\":3}";

// A new store behind the first line.
fn first_store(alloc: Global) -> Result<MemDesk, Fail> {
    done(alloc, &new_store(alloc, &[])?, &["run", "s"], FIRST)
}

// Each byte that a call writes would be a filler in the file that a stop within it leaves.
#[test]
fn a_stop_leaves_the_file_as_it_was(rt: HostRuntime) -> Result<(), Fail> {
    let alloc = rt.alloc();
    let store = first_store(alloc)?;
    let desk = backed_up(alloc, &store)?;
    for call in 0..desk.calls() {
        assert_eq!(rt; desk.said_at(call), 0, "call {call}");
        for filler in FILLERS {
            let stopped = desk.stopped(alloc, call, filler)?;
            assert!(rt; stopped.bytes() == store.bytes(), "call {call}");
        }
    }
    Ok(())
}

// The opening makes nine calls, and one says the text.
#[test]
fn a_call_that_fails_leaves_the_file_as_it_was(rt: HostRuntime) -> Result<(), Fail> {
    let alloc = rt.alloc();
    let store = first_store(alloc)?;
    let text = backup_of(alloc, (FIRST_MENU, "", "", ""))?;
    for call in 0..11 {
        let (ends, said) = if call < 9 {
            (Status::DeviceFault, "")
        } else if call == 9 {
            (Status::SayFault, "")
        } else {
            (Status::Done, text.as_str())
        };
        let mut desk = copied(alloc, &store, &[call])?;
        let status = run_on(alloc, &["backup", "s"], b"", &mut desk);
        assert_eq!(rt; status, ends, "call {call}");
        assert_eq!(rt; said_text(&desk), said, "call {call}");
        assert!(rt; desk.bytes() == store.bytes(), "call {call}");
    }
    Ok(())
}

// A backup of the file that a stop left says one of the two texts, the later one where a byte of
// the command's reply was said. A stop within that backup leaves a file of which the same is said.
fn expect_either(
    rt: &impl Abort,
    alloc: Global,
    stopped: &MemDesk,
    filler: u8,
    texts: (&str, &str),
    begun: usize,
) -> Result<(), Fail> {
    let desk = backed_up(alloc, stopped)?;
    let text = said_text(&desk);
    assert!(rt;
        text == texts.1 || (text == texts.0 && begun == 0),
        "{begun} bytes said"
    );
    for call in 0..desk.calls() {
        let stopped_again = desk.stopped(alloc, call, filler)?;
        let last = backed_up(alloc, &stopped_again)?;
        assert!(rt; said_text(&last) == text, "call {call}");
    }
    Ok(())
}

#[test]
fn backs_up_what_a_stop_within_a_command_left(rt: HostRuntime) -> Result<(), Fail> {
    let alloc = rt.alloc();
    let desk = done(alloc, &first_store(alloc)?, &["run", "s"], MORE)?;
    let before = backup_of(alloc, (FIRST_MENU, "", "", ""))?;
    let after = backup_of(alloc, (MORE_MENU, "", "", ""))?;
    let texts = (before.as_str(), after.as_str());
    for call in 0..desk.calls() {
        for filler in FILLERS {
            let stopped = desk.stopped(alloc, call, filler)?;
            let begun = desk.said_at(call);
            expect_either(&rt, alloc, &stopped, filler, texts, begun)?;
        }
    }
    Ok(())
}
