// Drills that are done.
use pl_base::NoMemory;
use pl_desk::{MemSource, QuickDesk};
use places::{Status, run};
use std::alloc::Global;
use std::test::Fail;

// `run` in memory: a test compares what it says, and has no use for its clauses.
fn in_memory(alloc: Global, words: &[&str], input: &mut MemSource, desk: &mut QuickDesk) -> Status {
    run(alloc, words, input, desk)
}

// How a run of these words without an input ends on the desk.
fn run_on(alloc: Global, words: &[&str], desk: &mut QuickDesk) -> Status {
    match MemSource::over(alloc, b"", 1, &[]) {
        Ok(mut input) => in_memory(alloc, words, &mut input, desk),
        Err(NoMemory) => Status::NoMemory,
    }
}

// What a drill of these words says behind `new`.
pub fn said_of(alloc: Global, words: &[&str]) -> Result<String, Fail> {
    let mut desk = QuickDesk::new(alloc);
    let made = run_on(alloc, &["new", "s"], &mut desk);
    let done = run_on(alloc, words, &mut desk);
    if made != Status::Done || done != Status::Done {
        return Err("no drill".into());
    }
    let said = str::from_utf8(desk.said())?;
    Ok(String::from_str(alloc, said)?)
}

// What another program counted of the same lines on a database.
const COUNTED: &str = "new\ndrill\t200\trefused\t11\nstats\tpages\t145\tvisits\t120\titems\t40\t";

#[test]
fn says_the_same_on_two_files(rt: HostRuntime) -> Result<(), Fail> {
    let alloc = rt.alloc();
    let words: &[&str] = &["drill", "s", "200", "1"];
    let said = said_of(alloc, words)?;
    let again = said_of(alloc, words)?;
    assert_eq!(rt; again.as_str(), said.as_str());
    assert!(rt; said.as_str().starts_with(COUNTED), "{said}");
    Ok(())
}
