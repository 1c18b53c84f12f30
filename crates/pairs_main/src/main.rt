//! Performs the lines of a script on two engines, one over rows in linked slots and one over rows
//! in vectors, and prints whether they reply the same; or performs them on one of the two, and
//! prints its replies. In place of a script it imports a bookmark file, and exports the bookmarks
//! behind that. The scripts for it stand in `bench/`.
#![tactic(auto)]

ghost use Rattle.std.specs.Prelude.{◌≡◌, ◌<◌, ◌≤◌};
ghost use Rattle.pl_base.specs.Live.{slot_limit};

mod choice;
mod fault;
mod imports;
mod outcome;
mod pair;
mod replies;
mod run;
mod tree;
mod work;

use choice::{Choice, Order};
use fault::Fault;
use pl_base::Steps;
use run::{both, flat, linked};
use std::env::{self, Env};
use std::io::{self, Read};
use std::marker::Brand;
use std::process::ExitCode;
use std::sync::ledger::{Blank, Ledger};

fn main(rt: HostRuntime) -> ExitCode {
    let status = match answer(&rt) {
        Ok(status) => status,
        Err(fault) => told(&rt, fault),
    };
    ExitCode::from(status)
}

// Says why the work was not done to its end, and gives the exit status for that.
fn told(rt: &impl Eprint, fault: Fault) -> u8 {
    let _ = eprintln!(rt; "pairs_main: {fault}");
    fault.status()
}

// The exit status of what the words ask for.
fn answer(rt: &HostRuntime) -> Result<u8, Fault> {
    let words = words(rt)?;
    let Some(order) = Order::of(&words) else {
        return Err(Fault::Usage);
    };
    let input = input(rt)?;
    perform::<Brand>(rt, order, &input, Blank::new(1))
}

// The words behind the program's name.
fn words(rt: &(impl Env + AllocGlobal)) -> Result<Vec<String>, Fault> {
    match env::args(rt) {
        Ok(args) => args
            .skip(1)
            .collect(rt.alloc())
            .map_err(|_| Fault::NoMemory),
        Err(_) => Err(Fault::Usage),
    }
}

// The bytes of standard input.
fn input(rt: &HostRuntime) -> Result<Vec<u8>, Fault> {
    let mut bytes = Vec::new(rt.alloc());
    match rt.stdin().read_to_end(&mut bytes) {
        Ok(_) => Ok(bytes),
        Err(error) if error.kind() == io::ErrorKind::OutOfMemory => Err(Fault::NoMemory),
        Err(_) => Err(Fault::NotRead),
    }
}

fn perform<L: Ledger>(
    rt: &HostRuntime,
    order: Order,
    input: &[u8],
    blank: Blank,
) -> Result<u8, Fault>
    requires name { blank.name ≡ L.name }
    requires parts { blank.parts ≡ L.parts }
    requires some { 0 < blank.parts }
    requires most { order.limit ≤ slot_limit }
{
    let steps = &mut Steps::<L>::none(blank);
    match order.choice {
        Choice::Both => both(rt, order, input, steps),
        Choice::Linked => linked(rt, order, input, steps),
        Choice::Flat => flat(rt, order, input, steps),
    }
}
