//! `places`: the store behind a browser's history window and address bar.
//!
//! `places new STORE` makes a store's file, and `places run STORE` answers the commands of its
//! input, one a line, on the store that the file holds. `places try` does so on a store in memory.
//! `places import STORE` puts the bookmark file of its input into the store that the file holds,
//! and `places export STORE` says the bookmarks of that store as such a file, `places backup STORE`
//! as a JSON backup. `places restore STORE` puts such a backup in their place. `places drill STORE
//! N SEED` runs generated lines on it.
#![tactic(auto)]

use pl_file::{FileDesk, StreamSource};
use places::{Status, run};
use std::alloc::Global;
use std::env::Env;
use std::process::ExitCode;
use std::{env, io};

fn main(rt: HostRuntime) -> ExitCode {
    let status = match words(&rt) {
        Ok(words) => run_words(&rt, &words),
        Err(status) => told(&rt, status),
    };
    ExitCode::from(status.number())
}

// The words behind the program's name.
fn words(rt: &(impl Env + AllocGlobal)) -> Result<Vec<String>, Status> {
    match env::args(rt) {
        Ok(args) => args
            .skip(1)
            .collect(rt.alloc())
            .map_err(|_| Status::NoMemory),
        Err(error) if error.kind() == io::ErrorKind::OutOfMemory => Err(Status::NoMemory),
        Err(_) => Err(Status::Usage),
    }
}

fn run_words(rt: &HostRuntime, words: &[String]) -> Status {
    let alloc = rt.alloc();
    let texts: Result<Vec<&str>, _> = words.iter().map(|word| word.as_str()).collect(alloc);
    let Ok(texts) = texts else {
        return told(rt, Status::NoMemory);
    };
    let path = texts.get(1).copied().unwrap_or("");
    let Ok(mut desk) = FileDesk::at(rt, path) else {
        return told(rt, Status::NoMemory);
    };
    let status = run(alloc, &texts, &mut StreamSource::new(rt), &mut desk);
    if desk.is_standard_error() {
        // The line would land in the store.
        return status;
    }
    told(rt, status)
}

// Tells it on standard error. One that cannot be told there is told by the exit status still.
fn told(rt: &impl Eprint, status: Status) -> Status {
    let _ = tell(rt, &status);
    status
}

// The line on standard error of a status other than Done.
fn tell(rt: &impl Eprint, status: &Status) -> io::Result<()> {
    let number = status.number();
    match (status, status.value()) {
        (Status::Done, _) => Ok(()),
        (_, Some(value)) => eprintln!(rt; "places: status {number} value {value}"),
        (_, None) => eprintln!(rt; "places: status {number}"),
    }
}
