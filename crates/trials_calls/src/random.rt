// Calls that look drawn at random, on rows in linked slots and over vectors.
ghost use Rattle.std.specs.Prelude.{◌≡◌, ◌<◌};

use crate::{Chance, Pair};
use pl_base::Steps;
use pl_linked::Linked;
use pl_plain::Flat;
use std::alloc::Global;
use std::marker::Brand;
use std::process::Abort;
use std::sync::ledger::{Blank, Ledger};
use std::test::Fail;
use trials_forms::GoodRows;

const CALLS: u32 = 10_000;

fn opened(alloc: Global) -> Result<Pair<Linked, Flat>, Fail> {
    let linked = Linked::opening(alloc)?;
    let flat = Flat::opening(alloc)?;
    Ok(Pair {
        one: GoodRows::over(alloc, linked),
        other: GoodRows::over(alloc, flat),
    })
}

fn run<L: Ledger>(rt: &impl Abort, alloc: Global, blank: Blank) -> Result<(), Fail>
    requires name { blank.name ≡ L.name }
    requires parts { blank.parts ≡ L.parts }
    requires some { 0 < blank.parts }
{
    let steps = &mut Steps::<L>::none(blank);
    let pair = opened(alloc)?;
    let mut chance = Chance::seeded(20_261_130);
    let (pair, made) = pair.run(&mut chance, CALLS, steps)?;
    assert_eq!(rt; made, CALLS);
    pair.same_all(steps)
}

#[test]
fn ten_thousand_calls_answer_as_over_vectors(rt: HostRuntime) -> Result<(), Fail> {
    run::<Brand>(&rt, rt.alloc(), Blank::new(1))
}
