// What an engine keeps of its pages, after each line of a script, beside what is made afresh from
// its rows as they then are.
ghost use Rattle.std.specs.Prelude.{◌≡◌, ◌<◌};
ghost use Rattle.pl_base.specs.Rows.{IsSound};

use crate::are_alike;
use crate::script::{Last, URLS};
use crate::turns::after_turn;
use pl_base::{Rows, SLOT_LIMIT, Steps};
use pl_changes::known_of;
use pl_engine::{Engine, Parts};
use pl_known::Known;
use pl_linked::Linked;
use pl_plain::Flat;
use std::alloc::Global;
use std::marker::Brand;
use std::process::Abort;
use std::sync::ledger::{Blank, Ledger};
use std::test::Fail;

// How many lines a script has.
const TURNS: u32 = 600;

// Whether the same pages are found, or none, by each URL of the script.
fn find_alike<R: Rows>(parts: &Parts<R>, made: &Known) -> bool {
    URLS.iter()
        .all(|url| parts.urls.find(url) == made.urls.find(url))
}

fn expect_followed<R: Rows + Drop, L: Ledger>(
    rt: &impl Abort,
    alloc: Global,
    engine: Engine<R>,
    steps: &mut Steps<L>,
) -> Result<Engine<R>, Fail> {
    let parts = engine.parts();
    let made = known_of(alloc, &parts.rows, steps)?;
    let alike = are_alike(alloc, &parts, &made)? && find_alike(&parts, &made);
    assert!(rt; alike);
    Ok(Engine::of(alloc, parts))
}

fn expect_all_followed<R: Rows + Drop, L: Ledger>(
    rt: &impl Abort,
    alloc: Global,
    rows: R,
    blank: Blank,
) -> Result<(), Fail>
    requires sound { IsSound (R.kept rows) }
    requires name { blank.name ≡ L.name }
    requires parts { blank.parts ≡ L.parts }
    requires some { 0 < blank.parts }
{
    let mut steps = Steps::<L>::none(blank);
    let mut engine = Engine::over(alloc, rows, SLOT_LIMIT, &mut steps)?;
    let mut count = 0u32;
    let mut last = Last { visit: 0, item: 6 };
    for turn in 0..TURNS {
        let after = after_turn(alloc, engine, last, turn, &mut steps)?;
        last = after.last;
        count = count.wrapping_add(u32::from(after.is_performed));
        engine = expect_followed(rt, alloc, after.engine, &mut steps)?;
    }
    assert!(rt; count > TURNS / 2, "{count}");
    Ok(())
}

#[test]
fn views_are_followed_over_vectors(rt: HostRuntime) -> Result<(), Fail> {
    let alloc = rt.alloc();
    let rows = Flat::opening(alloc)?;
    expect_all_followed::<Flat, Brand>(&rt, alloc, rows, Blank::new(1))
}

#[test]
fn views_are_followed_over_linked_slots(rt: HostRuntime) -> Result<(), Fail> {
    let alloc = rt.alloc();
    let rows = Linked::opening(alloc)?;
    expect_all_followed::<Linked, Brand>(&rt, alloc, rows, Blank::new(1))
}
