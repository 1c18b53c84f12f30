// Imports where ids or slots are spent: all of it is asked for before anything changes. The worked
// file wants three pages and eight items, and leaves an opening store 29 slots.
ghost use Rattle.std.specs.Prelude.{◌≡◌, ◌<◌, ◌≤◌, IfOk};
ghost use Rattle.pl_base.specs.Live.{slot_limit};
ghost use Rattle.pl_base.specs.Rows.{IsSound};
ghost use Rattle.pl_plain.specs.Flat.{kept_of};
ghost use Rattle.pl_step.specs.Commands.{HasDates};

use pl_base::{Ids, Steps, Txt};
use pl_engine::Engine;
use pl_nbread::read;
use pl_plain::Flat;
use pl_script::reply_text;
use pl_step::Command;
use std::alloc::Global;
use std::marker::Brand;
use std::process::Abort;
use std::sync::ledger::{Blank, Ledger};
use std::test::Fail;
use trials_desks::WORKED;

// The import of the worked file.
fn worked(alloc: Global) -> Result<Command, Fail>
    ensures { IfOk result HasDates }
{
    let tree = read(alloc, WORKED.as_bytes()).map_err(|_| "no tree")?;
    Ok(Command::Import(tree))
}

fn performed<L: Ledger>(
    alloc: Global,
    engine: Engine<Flat>,
    command: &Command,
    steps: &mut Steps<L>,
) -> Result<(Engine<Flat>, Txt), Fail>
    requires { HasDates command.now }
{
    let (engine, reply) = engine.apply(command, steps)?;
    let told = reply_text(alloc, &reply);
    drop(reply);
    Ok((engine, told?))
}

fn imported<L: Ledger>(
    alloc: Global,
    engine: Engine<Flat>,
    steps: &mut Steps<L>,
) -> Result<(Engine<Flat>, Txt), Fail> {
    let command = worked(alloc)?;
    let imported = performed(alloc, engine, &command, steps);
    drop(command);
    imported
}

fn replies_in<L: Ledger>(
    alloc: Global,
    rows: Flat,
    limit: u32,
    blank: Blank,
) -> Result<(Txt, Txt), Fail>
    requires sound { IsSound (kept_of rows) }
    requires limit { limit ≤ slot_limit }
    requires name { blank.name ≡ L.name }
    requires parts { blank.parts ≡ L.parts }
    requires some { 0 < blank.parts }
{
    let mut steps = Steps::<L>::none(blank);
    let engine = Engine::over(alloc, rows, limit, &mut steps)?;
    let (engine, said) = imported(alloc, engine, &mut steps)?;
    let command = Command::Stats;
    let stats = performed(alloc, engine, &command, &mut steps);
    drop(command);
    Ok((said, stats?.1))
}

// The replies to the import of the worked file, and then to `stats`, on rows that may take so many
// slots.
fn replies(alloc: Global, rows: Flat, limit: u32) -> Result<(Txt, Txt), Fail>
    requires sound { IsSound (kept_of rows) }
    requires limit { limit ≤ slot_limit }
{
    replies_in::<Brand>(alloc, rows, limit, Blank::new(1))
}

fn expect(
    rt: &impl Abort,
    alloc: Global,
    rows: Flat,
    limit: u32,
    said: &str,
    told: &str,
) -> Result<(), Fail>
    requires sound { IsSound (kept_of rows) }
    requires limit { limit ≤ slot_limit }
{
    let replies = replies(alloc, rows, limit)?;
    assert_eq!(rt; replies.0.as_str(), said);
    assert_eq!(rt; replies.1.as_str(), told);
    Ok(())
}

// Rows that give these ids next.
fn rows(alloc: Global, page: u32, item: u32) -> Result<Flat, Fail>
    requires page { 1 ≤ page }
    requires item { 7 ≤ item }
    ensures { IfOk result (λ rows. IsSound (kept_of rows)) }
{
    let visit = 1;
    Ok(Flat::with_ids(alloc, Ids { page, visit, item })?)
}

const IMPORTED: &str = "imported\titems\t4\ttags\t2\tskipped\t1\n";

const AFTER: &str = "stats\tpages\t3\tvisits\t0\titems\t14\torigins\t3\tsum\t420\tslots\t29\n";

const BEFORE: &str = "stats\tpages\t0\tvisits\t0\titems\t6\torigins\t0\tsum\t0\tslots\t6\n";

// The id that is never given.
const END: u32 = 4_294_967_295;

#[test]
fn imports_with_the_last_ids_and_slots(rt: HostRuntime) -> Result<(), Fail> {
    let rows = rows(rt.alloc(), END - 3, END - 8)?;
    expect(&rt, rt.alloc(), rows, 29, IMPORTED, AFTER)
}

#[test]
fn refuses_where_pages_run_out(rt: HostRuntime) -> Result<(), Fail> {
    let rows = rows(rt.alloc(), END - 2, END - 7)?;
    expect(&rt, rt.alloc(), rows, 28, "refused\t13\t1\n", BEFORE)
}

#[test]
fn refuses_where_items_run_out(rt: HostRuntime) -> Result<(), Fail> {
    let rows = rows(rt.alloc(), END - 3, END - 7)?;
    expect(&rt, rt.alloc(), rows, 28, "refused\t13\t3\n", BEFORE)
}

#[test]
fn refuses_where_slots_run_out(rt: HostRuntime) -> Result<(), Fail> {
    let rows = rows(rt.alloc(), END - 3, END - 8)?;
    expect(&rt, rt.alloc(), rows, 28, "refused\t12\t29\n", BEFORE)
}
