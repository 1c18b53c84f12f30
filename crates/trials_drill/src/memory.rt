// The lines of a drill on a store in memory, beside the drill on a file.
ghost use Rattle.std.specs.Prelude.{◌≡◌, ◌≤◌, ◌+◌, IfOk};

use crate::summary::said_of;
use pl_drill::Drill;
use pl_step::Reply;
use pl_store::SLOT_LIMIT;
use std::alloc::Global;
use std::process::Abort;
use std::test::Fail;
use trials_memory::{Memory, answered, replied};

// How many lines each drill has behind its first.
const LINES: u32 = 200;

// By seed: what is said, as the table in `docs/COMMANDS.md` has it.
const SAID: &[(u64, &str)] = &[
    (
        1,
        "drill\t200\trefused\t11\n\
         stats\tpages\t145\tvisits\t120\titems\t40\torigins\t42\tsum\t20038\tslots\t518\n",
    ),
    (
        2,
        "drill\t200\trefused\t15\n\
         stats\tpages\t143\tvisits\t119\titems\t40\torigins\t39\tsum\t23111\tslots\t509\n",
    ),
    (
        3,
        "drill\t200\trefused\t15\n\
         stats\tpages\t142\tvisits\t125\titems\t31\torigins\t39\tsum\t22090\tslots\t502\n",
    ),
    (
        4,
        "drill\t200\trefused\t13\n\
         stats\tpages\t149\tvisits\t128\titems\t36\torigins\t39\tsum\t27847\tslots\t527\n",
    ),
    (
        5,
        "drill\t200\trefused\t13\n\
         stats\tpages\t148\tvisits\t128\titems\t34\torigins\t36\tsum\t21425\tslots\t517\n",
    ),
    (
        6,
        "drill\t200\trefused\t13\n\
         stats\tpages\t147\tvisits\t125\titems\t35\torigins\t35\tsum\t22996\tslots\t520\n",
    ),
    (
        7,
        "drill\t200\trefused\t13\n\
         stats\tpages\t147\tvisits\t125\titems\t35\torigins\t41\tsum\t21914\tslots\t521\n",
    ),
    (
        8,
        "drill\t200\trefused\t14\n\
         stats\tpages\t147\tvisits\t129\titems\t31\torigins\t42\tsum\t23184\tslots\t517\n",
    ),
    (
        9,
        "drill\t200\trefused\t15\n\
         stats\tpages\t152\tvisits\t119\titems\t48\torigins\t39\tsum\t27446\tslots\t544\n",
    ),
    (
        10,
        "drill\t200\trefused\t12\n\
         stats\tpages\t145\tvisits\t116\titems\t44\torigins\t35\tsum\t26213\tslots\t517\n",
    ),
    (
        11,
        "drill\t200\trefused\t13\n\
         stats\tpages\t160\tvisits\t128\titems\t46\torigins\t40\tsum\t25371\tslots\t565\n",
    ),
];

// A store behind some lines of a drill.
#[derive(Drop)]
struct Made {
    memory: Memory,
    drill: Drill,
    // How many lines were refused.
    refused: u32,
}

// Takes note of the visit that a store took.
fn note(drill: &mut Drill, reply: &Option<Reply>)
    ensures { drill.new.day ≡ drill.old.day }
{
    if let Some(Reply::Visit { visit, .. }) = reply {
        drill.take(*visit);
    }
}

fn is_refused(reply: &Option<Reply>) -> bool {
    matches!(reply, Some(Reply::Refused(_)))
}

// Performs a line.
fn performed(
    alloc: Global,
    memory: Memory,
    drill: Drill,
    refused: u32,
    line: String,
) -> Result<Made, Fail>
    ensures { IfOk result (λ made. made.drill.day ≡ drill.day) }
{
    let (memory, reply) = replied(alloc, memory, line.as_bytes())?;
    let mut drill = drill;
    note(&mut drill, &reply);
    let refused = refused.saturating_add(u32::from(is_refused(&reply)));
    drop(reply);
    Ok(Made {
        memory,
        drill,
        refused,
    })
}

// Performs the line of this number, the one behind the last.
fn next(alloc: Global, made: Made, number: u32) -> Result<Made, Fail>
    requires few { number ≤ 200 }
    requires days { 60 ≤ made.drill.day }
    requires dates { made.drill.day ≤ 19_000 + number }
    ensures days { IfOk result (λ made. 60 ≤ made.drill.day) }
    ensures dates { IfOk result (λ made. made.drill.day ≤ 19_000 + (number + 1)) }
{
    let Made {
        memory,
        mut drill,
        refused,
    } = made;
    let line = drill.line(alloc, number)?;
    performed(alloc, memory, drill, refused, line)
}

// A new store behind all lines.
fn all_made(alloc: Global, seed: u64) -> Result<Made, Fail> {
    let mut made = Made {
        memory: Memory::opening(alloc, SLOT_LIMIT)?,
        drill: Drill::of(seed),
        refused: 0,
    };
    for number in 0..LINES + 1 {
        made = next(alloc, made, number)?;
    }
    Ok(made)
}

// What is said of a store.
fn summed_up(alloc: Global, made: Made) -> Result<String, Fail> {
    let refused = made.refused;
    let (_, stats) = answered(alloc, made.memory, b"stats")?;
    match stats {
        Some(stats) => Ok(format!(in alloc;
            "drill\t{LINES}\trefused\t{refused}\n{}",
            stats.as_str()
        )?),
        None => Err("no reply".into()),
    }
}

// What a drill of this seed says on a new file.
fn said(alloc: Global, seed: u64) -> Result<String, Fail> {
    let seed = format!(in alloc; "{seed}")?;
    said_of(alloc, &["drill", "s", "200", seed.as_str()])
}

fn expect_said(rt: &impl Abort, alloc: Global, seed: u64, wanted: &str) -> Result<(), Fail> {
    let made = summed_up(alloc, all_made(alloc, seed)?)?;
    assert_eq!(rt; made.as_str(), wanted, "in memory, seed {seed}");
    let said = said(alloc, seed)?;
    assert_eq!(rt;
        said.as_str().strip_prefix("new\n"),
        Some(wanted),
        "on a file, seed {seed}"
    );
    Ok(())
}

// The three seeds of the table behind so many.
fn expect_three(rt: &impl Abort, alloc: Global, front: usize) -> Result<(), Fail> {
    for (seed, wanted) in SAID.iter().skip(front).take(3) {
        expect_said(rt, alloc, *seed, wanted)?;
    }
    Ok(())
}

#[test]
fn lines_in_memory_leave_what_the_first_drills_say(rt: HostRuntime) -> Result<(), Fail> {
    expect_three(&rt, rt.alloc(), 0)
}

#[test]
fn and_the_next(rt: HostRuntime) -> Result<(), Fail> {
    expect_three(&rt, rt.alloc(), 3)
}

#[test]
fn and_those_behind_them(rt: HostRuntime) -> Result<(), Fail> {
    expect_three(&rt, rt.alloc(), 6)
}

#[test]
fn and_the_last(rt: HostRuntime) -> Result<(), Fail> {
    expect_three(&rt, rt.alloc(), 9)
}
