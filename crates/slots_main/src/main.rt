//! Does one kind of work on an arena over pages made in memory, as often as its words say, and
//! prints a sum of what it read. `bench/slots.py` times it.
#![tactic(auto)]

ghost use Rattle.std.specs.Prelude.{◌≡◌, ◌<◌, ◌≤◌};

mod chance;
mod changes;
mod fault;
mod order;
mod places;
mod rows;
mod texts;
mod work;

use fault::Fault;
use order::{Order, Work};
use pl_base::Steps;
use std::alloc::Global;
use std::env::{self, Env};
use std::io;
use std::marker::Brand;
use std::process::ExitCode;
use std::sync::ledger::{Blank, Ledger};

fn main(rt: HostRuntime) -> ExitCode {
    let status = match answer(&rt) {
        Ok(()) => 0,
        Err(fault) => told(&rt, fault),
    };
    ExitCode::from(status)
}

// Says why there is no sum, and gives the exit status for that.
fn told(rt: &impl Eprint, fault: Fault) -> u8 {
    let _ = eprintln!(rt; "slots_main: {fault}");
    fault.status()
}

fn answer(rt: &HostRuntime) -> Result<(), Fault> {
    let words = words(rt)?;
    let Some(order) = Order::of(&words) else {
        return Err(Fault::Usage);
    };
    let sum = perform::<Brand>(rt.alloc(), &order, Blank::new(1))?;
    say(rt, sum).map_err(|_| Fault::NotSaid)
}

fn say(rt: &impl Print, sum: u64) -> io::Result<()> {
    println!(rt; "{sum}")
}

// The words behind the program's name.
fn words(rt: &(impl Env + AllocGlobal)) -> Result<Vec<String>, Fault> {
    match env::args(rt) {
        Ok(args) => args
            .skip(1)
            .collect(rt.alloc())
            .map_err(|_| Fault::NoMemory),
        Err(_) => Err(Fault::Usage),
    }
}

fn perform<L: Ledger>(alloc: Global, order: &Order, blank: Blank) -> Result<u64, Fault>
    requires name { blank.name ≡ L.name }
    requires parts { blank.parts ≡ L.parts }
    requires some { 0 < blank.parts }
    requires count { 1 ≤ order.now.count }
{
    let steps = &mut Steps::<L>::none(blank);
    match order.work {
        Work::Read => work::read(alloc, order.count, order.times, steps),
        Work::Write => work::write(alloc, order.count, order.times, steps),
        Work::Field => work::field(alloc, order.count, order.times, steps),
        Work::Link => work::link(alloc, order.count, order.times, steps),
        Work::Touched => work::touched(alloc, order.count, order.times, steps),
        Work::Texts => work::texts(alloc, order.count, order.times, steps),
    }
}
