// The lines of the scripts by the plain program too, one by one.
use super::history::HISTORY;
use super::origins::ORIGINS;
use super::rows::ROWS;
use pl_base::SLOT_LIMIT;
use std::alloc::Global;
use std::process::Abort;
use std::test::Fail;
use trials_memory::{Memory, answered};

// What is said of the lines of a script.
fn said_of(alloc: Global, script: &[u8]) -> Result<Vec<u8>, Fail> {
    let mut memory = Memory::opening(alloc, SLOT_LIMIT)?;
    let mut said = Vec::new(alloc);
    for line in script.split(|byte| *byte == b'\n') {
        let (next, text) = answered(alloc, memory, line)?;
        memory = next;
        if let Some(text) = text {
            said.extend_from_slice(text.as_str().as_bytes())?;
        }
    }
    Ok(said)
}

fn expect_lines(rt: &impl Abort, alloc: Global, table: &[(&[u8], &[u8])]) -> Result<(), Fail> {
    for (script, said) in table {
        assert_eq!(rt; said_of(alloc, script)?.as_slice(), *said);
    }
    Ok(())
}

#[test]
fn the_plain_program_says_the_same(rt: HostRuntime) -> Result<(), Fail> {
    expect_lines(&rt, rt.alloc(), ROWS)?;
    expect_lines(&rt, rt.alloc(), HISTORY)?;
    expect_lines(&rt, rt.alloc(), ORIGINS)
}
