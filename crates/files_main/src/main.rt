//! Writes the file of linked slots that a script leaves, or checks the bytes of a file and says how
//! many slots its store takes, or all rows of it. `bench/open.py` times it.
#![tactic(auto)]

ghost use Rattle.std.specs.Prelude.{◌≡◌, ◌<◌};

mod fault;
mod known;
mod order;
mod pages;
mod rows;

use fault::Fault;
use order::Work;
use pl_base::Steps;
use pl_linked::Linked;
use rows::say_rows;
use std::env::{self, Env};
use std::io::{self, Read, Write};
use std::marker::Brand;
use std::process::ExitCode;
use std::sync::ledger::{Blank, Ledger};
use trials_written::file_of;

fn main(rt: HostRuntime) -> ExitCode {
    let status = match answer(&rt) {
        Ok(()) => 0,
        Err(fault) => told(&rt, fault),
    };
    ExitCode::from(status)
}

// Says why the work was not done to its end, and gives the exit status for that.
fn told(rt: &impl Eprint, fault: Fault) -> u8 {
    let _ = eprintln!(rt; "files_main: {fault}");
    fault.status()
}

fn answer(rt: &HostRuntime) -> Result<(), Fault> {
    let words = words(rt)?;
    let Some(work) = Work::of(&words) else {
        return Err(Fault::Usage);
    };
    let input = input(rt)?;
    perform::<Brand>(rt, work, input, Blank::new(1))
}

// The words behind the program's name.
fn words(rt: &(impl Env + AllocGlobal)) -> Result<Vec<String>, Fault> {
    match env::args(rt) {
        Ok(args) => args
            .skip(1)
            .collect(rt.alloc())
            .map_err(|_| Fault::NoMemory),
        Err(_) => Err(Fault::Usage),
    }
}

// The bytes of standard input.
fn input(rt: &HostRuntime) -> Result<Vec<u8>, Fault> {
    let mut bytes = Vec::new(rt.alloc());
    match rt.stdin().read_to_end(&mut bytes) {
        Ok(_) => Ok(bytes),
        Err(error) if error.kind() == io::ErrorKind::OutOfMemory => Err(Fault::NoMemory),
        Err(_) => Err(Fault::NotRead),
    }
}

fn perform<L: Ledger>(
    rt: &HostRuntime,
    work: Work,
    input: Vec<u8>,
    blank: Blank,
) -> Result<(), Fault>
    requires name { blank.name ≡ L.name }
    requires parts { blank.parts ≡ L.parts }
    requires some { 0 < blank.parts }
{
    let steps = &mut Steps::<L>::none(blank);
    match work {
        Work::Write => {
            let file = file_of(rt.alloc(), &input, steps)?;
            rt.stdout().write_all(&file).map_err(|_| Fault::NotSaid)
        }
        Work::Check => {
            let linked = Linked::check(rt.alloc(), input, steps)?;
            let slots = linked.live(steps);
            println!(rt; "{slots}").map_err(|_| Fault::NotSaid)
        }
        Work::Rows => said(rt, input, steps),
        Work::Again => {
            let file = file_of(rt.alloc(), &input, steps)?;
            said(rt, file, steps)
        }
    }
}

// Says the rows of a file.
fn said<L: Ledger>(
    rt: &(impl Print + AllocGlobal),
    file: Vec<u8>,
    steps: &mut Steps<L>,
) -> Result<(), Fault> {
    let linked = Linked::check(rt.alloc(), file, steps)?;
    say_rows(rt, &linked, steps)
}
