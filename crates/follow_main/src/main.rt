//! Makes views and what follows them, changes the views, and prints how many changes were made, how
//! many views there are and the sum of their positive frecencies. `bench/follow.py` times it.
#![tactic(auto)]

mod fault;
mod order;
mod pages;
mod work;

use fault::Fault;
use order::{Kept, Order};
use pl_base::{Day, NoMemory};
use pl_calendar::Calendar;
use pl_follow::{FoldedTexts, OrderIndex, UrlIndex};
use pl_totals::Totals;
use std::alloc::Global;
use std::env::{self, Env};
use std::io;
use std::process::ExitCode;
use trials_views::{Both, Nothing};
use work::{Done, work};

fn main(rt: HostRuntime) -> ExitCode {
    let status = match answer(&rt) {
        Ok(()) => 0,
        Err(fault) => told(&rt, fault),
    };
    ExitCode::from(status)
}

// Says why nothing was done, and gives the exit status for that.
fn told(rt: &impl Eprint, fault: Fault) -> u8 {
    let _ = eprintln!(rt; "follow_main: {fault}");
    fault.status()
}

fn answer(rt: &HostRuntime) -> Result<(), Fault> {
    let words = words(rt)?;
    let Some(order) = Order::of(&words) else {
        return Err(Fault::Usage);
    };
    let done = perform(rt.alloc(), &order)?;
    say(rt, done).map_err(|_| Fault::NotSaid)
}

fn say(rt: &impl Print, done: Done) -> io::Result<()> {
    println!(rt; "{} {} {}", done.changes, done.views, done.sum)
}

// The words behind the program's name.
fn words(rt: &(impl Env + AllocGlobal)) -> Result<Vec<String>, Fault> {
    match env::args(rt) {
        Ok(args) => args
            .skip(1)
            .collect(rt.alloc())
            .map_err(|_| Fault::NoMemory),
        Err(_) => Err(Fault::Usage),
    }
}

fn perform(alloc: Global, order: &Order) -> Result<Done, NoMemory> {
    match order.kept {
        Kept::Nothing => work(alloc, Nothing {}, order),
        Kept::Urls => work(alloc, UrlIndex::new(alloc), order),
        Kept::Orders => work(alloc, OrderIndex::new(alloc), order),
        Kept::Texts => work(alloc, FoldedTexts::new(alloc), order),
        Kept::Days => work(alloc, Calendar::new(alloc, Day(20_000)), order),
        Kept::Totals => work(alloc, Totals::new(alloc), order),
        Kept::All => work_all(alloc, order),
    }
}

fn work_all(alloc: Global, order: &Order) -> Result<Done, NoMemory> {
    let days = Both {
        one: Calendar::new(alloc, Day(20_000)),
        other: Totals::new(alloc),
    };
    let orders = Both {
        one: OrderIndex::new(alloc),
        other: FoldedTexts::new(alloc),
    };
    let both = Both {
        one: orders,
        other: days,
    };
    let all = Both {
        one: UrlIndex::new(alloc),
        other: both,
    };
    work(alloc, all, order)
}
