// Two years that come day by day to sixty pages.
ghost use Rattle.std.specs.Prelude.{◌≡◌, ◌<◌};

use crate::cases::{FIRST_DAY, visit_line};
use crate::engines::{expect_kept, filled, known_on, on_day};
use pl_base::{SLOT_LIMIT, Steps};
use pl_engine::Engine;
use pl_linked::Linked;
use std::alloc::{AllocError, Global};
use std::marker::Brand;
use std::process::Abort;
use std::sync::ledger::{Blank, Ledger};
use std::test::Fail;

const PAGES: u32 = 60;

const VISITS: u32 = 180;

const DAYS: u32 = 730;

// The visits lie within so many days, from half a year before the first one on.
const SPAN: u32 = 1_090;

const BEFORE: u32 = 180;

// The nth visit: each page gets one by every transition in turn.
fn nth_visit(alloc: Global, n: u32) -> Result<String, AllocError> {
    let transition = n.wrapping_add(n / PAGES) % 9;
    let day = n.wrapping_mul(37) % SPAN;
    visit_line(
        alloc,
        n % PAGES,
        transition.wrapping_add(1),
        FIRST_DAY.wrapping_sub(BEFORE).wrapping_add(day),
    )
}

// All visits, and a bookmark of each tenth page.
fn lines(alloc: Global) -> Result<Vec<String>, AllocError> {
    let mut lines = Vec::new(alloc);
    for n in 0..VISITS {
        lines.push(nth_visit(alloc, n)?)?;
    }
    for n in 0..PAGES / 10 {
        lines.push(bookmark_line(alloc, n.wrapping_mul(10))?)?;
    }
    Ok(lines)
}

fn bookmark_line(alloc: Global, page: u32) -> Result<String, AllocError> {
    let host = page % 7;
    format!(in alloc; "bookmark\t2\tend\thttps://h{host}.example/{page}\t\t0")
}

fn check<L: Ledger>(rt: &impl Abort, alloc: Global, blank: Blank) -> Result<(), Fail>
    requires name { blank.name ≡ L.name }
    requires parts { blank.parts ≡ L.parts }
    requires some { 0 < blank.parts }
{
    let mut steps = Steps::<L>::none(blank);
    let lines = lines(alloc)?;
    let rows = Linked::opening(alloc)?;
    let engine = Engine::over(alloc, rows, SLOT_LIMIT, &mut steps)?;
    let mut engine = filled(alloc, engine, &lines, &mut steps)?;
    for day in FIRST_DAY..FIRST_DAY + DAYS {
        engine = on_day(alloc, engine, day, &mut steps)?;
        let made = known_on(alloc, Linked::opening(alloc)?, day, &lines, &mut steps)?;
        engine = expect_kept(rt, alloc, engine, &made)?;
    }
    Ok(())
}

#[test]
fn two_years_come_day_by_day(rt: HostRuntime) -> Result<(), Fail> {
    check::<Brand>(&rt, rt.alloc(), Blank::new(1))
}
