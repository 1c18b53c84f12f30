// Days that come to pages of all ages: how many change, how much is read, and what is kept then.
ghost use Rattle.std.specs.Prelude.{◌≡◌, ◌<◌};

use crate::cases::{CASES, Case, FIRST_DAY, Told, lines_of};
use crate::engines::{
    answered, expect_as_over, expect_kept, filled, known_on, on_day, put_together,
};
use pl_base::{SLOT_LIMIT, Steps};
use pl_engine::Engine;
use pl_linked::Linked;
use pl_plain::Flat;
use pl_step::Reply;
use std::alloc::Global;
use std::marker::Brand;
use std::process::Abort;
use std::sync::ledger::{Blank, Ledger};
use std::test::Fail;
use trials_totals::{Log, Watched};

// A day reads no more records for each page that is due, and beside these.
const READS_FOR_A_PAGE: u32 = 512;

const OTHER_READS: u32 = 64;

fn is_told(reply: &Reply, told: Told) -> bool {
    match reply {
        Reply::Day { day, changed } => (day.0, *changed) == told,
        _ => false,
    }
}

// The most records that may be read where so many pages are due.
fn most_reads(due: u32) -> u32 {
    due.saturating_mul(READS_FOR_A_PAGE)
        .saturating_add(OTHER_READS)
}

// The engine at the first day, behind the visits of a case.
fn opened<'a, L: Ledger>(
    alloc: Global,
    log: &'a Log,
    lines: &[String],
    steps: &mut Steps<L>,
) -> Result<Engine<Watched<'a, Linked>>, Fail> {
    let rows = Linked::opening(alloc)?;
    let engine = Engine::over(alloc, Watched { rows, log }, SLOT_LIMIT, steps)?;
    let engine = on_day(alloc, engine, FIRST_DAY, steps)?;
    filled(alloc, engine, lines, steps)
}

// The engine on a day that comes. It answers as it should, and reads no more than it may.
fn expect_day<'a, L: Ledger>(
    rt: &impl Abort,
    alloc: Global,
    engine: Engine<Watched<'a, Linked>>,
    told: Told,
    log: &'a Log,
    steps: &mut Steps<L>,
) -> Result<Engine<Watched<'a, Linked>>, Fail> {
    let (day, due) = told;
    let engine = put_together(alloc, engine);
    let text = format!(in alloc; "day\t{day}")?;
    log.reads();
    let (engine, reply) = answered(alloc, engine, text.as_str(), steps)?;
    let reads = log.reads();
    assert!(rt; is_told(&reply, told), "{day}");
    assert!(rt; reads <= most_reads(due), "{day}: {reads}");
    drop(reply);
    Ok(engine)
}

fn check_case<L: Ledger>(
    rt: &impl Abort,
    alloc: Global,
    case: &Case,
    steps: &mut Steps<L>,
) -> Result<(), Fail> {
    let log = Log::empty();
    let lines = lines_of(alloc, case)?;
    let mut engine = opened(alloc, &log, &lines, steps)?;
    for told in case.days {
        engine = expect_day(rt, alloc, engine, *told, &log, steps)?;
        let made = known_on(alloc, Flat::opening(alloc)?, told.0, &lines, steps)?;
        engine = expect_kept(rt, alloc, engine, &made)?;
    }
    expect_as_over(rt, alloc, engine, steps)
}

fn check<L: Ledger>(rt: &impl Abort, alloc: Global, blank: Blank) -> Result<(), Fail>
    requires name { blank.name ≡ L.name }
    requires parts { blank.parts ≡ L.parts }
    requires some { 0 < blank.parts }
{
    let mut steps = Steps::<L>::none(blank);
    for case in CASES {
        check_case(rt, alloc, case, &mut steps)?;
    }
    Ok(())
}

#[test]
fn a_day_reads_what_is_due_alone(rt: HostRuntime) -> Result<(), Fail> {
    check::<Brand>(&rt, rt.alloc(), Blank::new(1))
}
