ghost use Rattle.std.specs.Prelude.{◌<◌};

// What the program says, with values that were worked out by hand.

mod bookmarks;
mod faults;
mod history;
mod lines;
mod origins;
mod plain;
mod rows;

use pl_desk::{MemDesk, MemSource};
use places::Status;
use std::alloc::{AllocError, Global};
use std::process::Abort;
use trials_desks::{in_memory, run_on};

// What `try` ends in and says on a script that comes in pieces of at most this many bytes.
fn tried(alloc: Global, script: &[u8], piece: usize) -> Result<(Status, Vec<u8>), AllocError>
    requires { 0 < piece }
{
    let mut input = MemSource::over(alloc, script, piece, &[]).map_err(|_| AllocError)?;
    let mut desk = MemDesk::holding(alloc, &[], &[]).map_err(|_| AllocError)?;
    let status = in_memory(alloc, &["try"], &mut input, &mut desk);
    let said = desk.said().to_vec(alloc)?;
    Ok((status, said))
}

// What `run` ends in and says on the script, in a file that was made for it.
fn stored(alloc: Global, script: &[u8]) -> Result<(Status, Vec<u8>), AllocError> {
    let mut desk = MemDesk::holding(alloc, &[], &[]).map_err(|_| AllocError)?;
    let status = match run_on(alloc, &["new", "s"], b"", &mut desk) {
        Status::Done => run_on(alloc, &["run", "s"], script, &mut desk),
        ended => ended,
    };
    let said = desk.said().strip_prefix(b"new\n").unwrap_or(b"");
    Ok((status, said.to_vec(alloc)?))
}

fn expect_said(rt: &impl Abort, tried: Result<(Status, Vec<u8>), AllocError>, said: &[u8]) {
    match tried {
        Ok((status, text)) => {
            assert_eq!(rt; status, Status::Done);
            assert_eq!(rt; text.as_slice(), said);
        }
        Err(_) => assert!(rt; false, "no memory"),
    }
}
