//! Puts bookmark files and visits into rows of one form, does one kind of work on them as often as
//! its words say, and prints a sum of what the rows answered. `bench/rows.py` times it.
#![tactic(auto)]

ghost use Rattle.std.specs.Prelude.{◌≡◌, ◌<◌};

mod build;
mod draw;
mod fault;
mod known;
mod order;
mod sum;
mod work;

use build::{fill, with_files};
use fault::Fault;
use order::{Form, Order};
use pl_base::{Rows, Steps};
use pl_linked::Linked;
use pl_plain::Flat;
use std::alloc::Global;
use std::env::{self, Env};
use std::io::{self, Read};
use std::marker::Brand;
use std::process::ExitCode;
use std::sync::ledger::{Blank, Ledger};
use trials_forms::GoodRows;

fn main(rt: HostRuntime) -> ExitCode {
    let status = match answer(&rt) {
        Ok(()) => 0,
        Err(fault) => told(&rt, fault),
    };
    ExitCode::from(status)
}

// Says why there is no sum, and gives the exit status for that.
fn told(rt: &impl Eprint, fault: Fault) -> u8 {
    let _ = eprintln!(rt; "rows_main: {fault}");
    fault.status()
}

fn answer(rt: &HostRuntime) -> Result<(), Fault> {
    let words = words(rt)?;
    let Some(order) = Order::of(&words) else {
        return Err(Fault::Usage);
    };
    let files = input(rt)?;
    let sum = perform::<Brand>(rt.alloc(), &order, &files, Blank::new(1))?;
    say(rt, sum).map_err(|_| Fault::NotSaid)
}

fn say(rt: &impl Print, sum: u64) -> io::Result<()> {
    println!(rt; "{sum}")
}

// The words behind the program's name.
fn words(rt: &(impl Env + AllocGlobal)) -> Result<Vec<String>, Fault> {
    match env::args(rt) {
        Ok(args) => args
            .skip(1)
            .collect(rt.alloc())
            .map_err(|_| Fault::NoMemory),
        Err(_) => Err(Fault::Usage),
    }
}

// The bytes of standard input.
fn input(rt: &HostRuntime) -> Result<Vec<u8>, Fault> {
    let mut bytes = Vec::new(rt.alloc());
    match rt.stdin().read_to_end(&mut bytes) {
        Ok(_) => Ok(bytes),
        Err(error) if error.kind() == io::ErrorKind::OutOfMemory => Err(Fault::NoMemory),
        Err(_) => Err(Fault::NotRead),
    }
}

fn perform<L: Ledger>(
    alloc: Global,
    order: &Order,
    files: &[u8],
    blank: Blank,
) -> Result<u64, Fault>
    requires name { blank.name ≡ L.name }
    requires parts { blank.parts ≡ L.parts }
    requires some { 0 < blank.parts }
{
    let steps = &mut Steps::<L>::none(blank);
    match order.form {
        Form::Linked => done(
            GoodRows::over(alloc, Linked::opening(alloc)?),
            order,
            files,
            steps,
        ),
        Form::Flat => done(
            GoodRows::over(alloc, Flat::opening(alloc)?),
            order,
            files,
            steps,
        ),
    }
}

// The sum of what these rows answer.
fn done<R: Rows + Drop, L: Ledger>(
    good: GoodRows<R>,
    order: &Order,
    files: &[u8],
    steps: &mut Steps<L>,
) -> Result<u64, Fault> {
    let GoodRows { alloc, mut rows } = with_files(good, files, steps)?;
    fill(&mut rows, steps)?;
    let sum = work::perform(alloc, &mut rows, order, steps)?;
    Ok(sum.total())
}
