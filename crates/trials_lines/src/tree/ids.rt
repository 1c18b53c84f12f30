// Stores whose ids or slots are spent: which cause is told first.
ghost use Rattle.std.specs.Prelude.{◌≡◌, ◌<◌, ◌≤◌, IfOk, IfSome};
ghost use Rattle.pl_base.specs.Live.{slot_limit};
ghost use Rattle.pl_base.specs.Rows.{IsSound};
ghost use Rattle.pl_plain.specs.Flat.{kept_of};
ghost use Rattle.pl_step.specs.Commands.{HasDates};

use pl_base::{Ids, NoMemory, Steps, Txt};
use pl_engine::Engine;
use pl_plain::Flat;
use pl_script::line;
use pl_step::{Command, Reply};
use pl_store::SLOT_LIMIT;
use std::alloc::Global;
use std::marker::Brand;
use std::process::Abort;
use std::sync::ledger::{Blank, Ledger};
use std::test::Fail;
use trials_memory::text_of;

// The engine after a command, and the reply.
fn stepped<L: Ledger>(
    engine: Engine<Flat>,
    command: Command,
    steps: &mut Steps<L>,
) -> Result<(Engine<Flat>, Reply), NoMemory>
    requires { HasDates command }
{
    let stepped = engine.apply(&command, steps);
    drop(command);
    stepped
}

// The engine after a command, and the text of the reply.
fn performed<L: Ledger>(
    alloc: Global,
    engine: Engine<Flat>,
    command: Command,
    steps: &mut Steps<L>,
) -> Result<(Engine<Flat>, Option<Txt>), Fail>
    requires { HasDates command }
{
    let (engine, reply) = stepped(engine, command, steps)?;
    let text = text_of(alloc, reply)?;
    Ok((engine, Some(text)))
}

// The engine after what a line gave, and the text of the reply, which a comment has not.
fn answered_to<L: Ledger>(
    alloc: Global,
    engine: Engine<Flat>,
    read: Option<Command>,
    steps: &mut Steps<L>,
) -> Result<(Engine<Flat>, Option<Txt>), Fail>
    requires { IfSome read HasDates }
{
    match read {
        Some(command) => performed(alloc, engine, command, steps),
        None => Ok((engine, None)),
    }
}

// The engine after a line, and the text of the reply, which a comment has not.
fn answered<L: Ledger>(
    alloc: Global,
    engine: Engine<Flat>,
    text: &[u8],
    steps: &mut Steps<L>,
) -> Result<(Engine<Flat>, Option<Txt>), Fail> {
    let read = line(alloc, text)?;
    answered_to(alloc, engine, read, steps)
}

// The engine after a line, which has this reply.
fn told<L: Ledger>(
    rt: &impl Abort,
    alloc: Global,
    engine: Engine<Flat>,
    text: &[u8],
    reply: &str,
    steps: &mut Steps<L>,
) -> Result<Engine<Flat>, Fail> {
    let (engine, answer) = answered(alloc, engine, text, steps)?;
    if let Some(answer) = answer {
        assert_eq!(rt; answer.as_str(), reply);
    }
    Ok(engine)
}

// An engine over the rows, which may take so many slots, answers the lines so.
fn talk_in<L: Ledger>(
    rt: &impl Abort,
    alloc: Global,
    rows: Flat,
    limit: u32,
    lines: &[(&[u8], &str)],
    blank: Blank,
) -> Result<(), Fail>
    requires sound { IsSound (kept_of rows) }
    requires limit { limit ≤ slot_limit }
    requires name { blank.name ≡ L.name }
    requires parts { blank.parts ≡ L.parts }
    requires some { 0 < blank.parts }
{
    let mut steps = Steps::<L>::none(blank);
    let mut engine = Engine::over(alloc, rows, limit, &mut steps)?;
    for (text, reply) in lines {
        engine = told(rt, alloc, engine, text, reply, &mut steps)?;
    }
    Ok(())
}

fn talk(
    rt: &impl Abort,
    alloc: Global,
    rows: Flat,
    limit: u32,
    lines: &[(&[u8], &str)],
) -> Result<(), Fail>
    requires sound { IsSound (kept_of rows) }
    requires limit { limit ≤ slot_limit }
{
    talk_in::<Brand>(rt, alloc, rows, limit, lines, Blank::new(1))
}

// Rows that give these ids next.
fn rows(alloc: Global, page: u32, visit: u32, item: u32) -> Result<Flat, Fail>
    requires page { 1 ≤ page }
    requires visit { 1 ≤ visit }
    requires item { 7 ≤ item }
    ensures { IfOk result (λ rows. IsSound (kept_of rows)) }
{
    Ok(Flat::with_ids(alloc, Ids { page, visit, item })?)
}

// The id that is never given, and the one before it.
const END: u32 = 4_294_967_295;

const LAST: u32 = END - 1;

// One id of an item is left.
const LAST_ITEM: &[(&[u8], &str)] = &[
    (b"folder\t4294967294\tend\tF\t0", "refused\t5\t4294967294\n"),
    (b"folder\t2\t0\tF\t0", "item\t4294967294\n"),
    (b"separator\t2\t0\t0", "refused\t13\t3\n"),
    (b"folder\t2\t2\tF\t0", "refused\t8\t2\t1\n"),
    (
        b"bookmark\t2\t0\thttps://a.example/\tA\t0",
        "refused\t13\t3\n",
    ),
    (b"page\thttps://a.example/", "refused\t4\n"),
    (b"remove\t4294967294", "ok\n"),
    (b"folder\t2\t0\tF\t0", "refused\t13\t3\n"),
];

#[test]
fn gives_the_last_id_of_an_item(rt: HostRuntime) -> Result<(), Fail> {
    let rows = rows(rt.alloc(), 1, 1, LAST)?;
    talk(&rt, rt.alloc(), rows, SLOT_LIMIT, LAST_ITEM)
}

// A new tag wants two ids of items, where one is left: nothing is made, and the last id of a page
// is still there.
const ONE_OF_TWO: &[(&[u8], &str)] = &[
    (b"tag\thttps://a.example/\tRed\t0", "refused\t13\t3\n"),
    (b"page\thttps://a.example/", "refused\t4\n"),
    (b"list\t4", "rows\t0\n"),
    (
        b"visit\thttps://a.example/\t1\t0",
        "visit\t1\tpage\t4294967294\tfrecency\t100\n",
    ),
    (b"folder\t2\t0\tF\t0", "item\t4294967294\n"),
];

#[test]
fn makes_nothing_for_half_a_tag(rt: HostRuntime) -> Result<(), Fail> {
    let rows = rows(rt.alloc(), LAST, 1, LAST)?;
    talk(&rt, rt.alloc(), rows, SLOT_LIMIT, ONE_OF_TWO)
}

// Two ids of items are left, for a folder and an entry. That the page has the tag is told first.
const LAST_TAG: &[(&[u8], &str)] = &[
    (b"tag\thttps://a.example/\tRed\t0", "ok\n"),
    (b"tag\thttps://a.example/\tred\t0", "refused\t15\n"),
    (b"tag\thttps://a.example/\tBlue\t0", "refused\t13\t3\n"),
    (b"tag\thttps://b.example/\tRed\t0", "refused\t13\t3\n"),
    (b"page\thttps://b.example/", "refused\t4\n"),
    (b"untag\thttps://a.example/\tBlue", "refused\t18\n"),
    (b"untag\thttps://a.example/\tRed", "ok\n"),
    (b"tag\thttps://a.example/\tRed\t0", "refused\t13\t3\n"),
];

#[test]
fn gives_the_last_ids_to_a_tag(rt: HostRuntime) -> Result<(), Fail> {
    let rows = rows(rt.alloc(), 1, 1, END - 2)?;
    talk(&rt, rt.alloc(), rows, SLOT_LIMIT, LAST_TAG)
}

// No id is left, and no slot: whatever else may be wrong with a line is told before both, and ids
// before slots, those of pages first.
const NOTHING_LEFT: &[(&[u8], &str)] = &[
    (b"visit\tabout:blank\t1\t0\t9", "refused\t2\n"),
    (b"visit\thttps://a.example/\t1\t0\t9", "refused\t3\t9\n"),
    (b"visit\thttps://a.example/\t1\t0", "refused\t13\t1\n"),
    (b"title\thttps://a.example/\tT", "refused\t4\n"),
    (b"page\thttps://a.example/", "refused\t4\n"),
    (b"folder\t9\t5\tF\t0", "refused\t5\t9\n"),
    (b"folder\t4\t5\tF\t0", "refused\t7\t4\n"),
    (b"folder\t2\t5\tF\t0", "refused\t8\t5\t0\n"),
    (b"folder\t2\t0\tF\t0", "refused\t13\t3\n"),
    (b"separator\t9\t5\t0", "refused\t5\t9\n"),
    (b"separator\t1\t5\t0", "refused\t7\t1\n"),
    (b"separator\t2\t5\t0", "refused\t8\t5\t0\n"),
    (b"separator\t2\t0\t0", "refused\t13\t3\n"),
    (
        b"bookmark\t9\t5\thttps://a.example/\tA\t0",
        "refused\t5\t9\n",
    ),
    (
        b"bookmark\t1\t5\thttps://a.example/\tA\t0",
        "refused\t7\t1\n",
    ),
    (
        b"bookmark\t2\t1\thttps://a.example/\tA\t0",
        "refused\t8\t1\t0\n",
    ),
    (
        b"bookmark\t2\t0\thttps://a.example/\tA\t0",
        "refused\t13\t1\n",
    ),
    (b"tag\thttps://a.example/\tRed\t0", "refused\t13\t1\n"),
    (b"untag\thttps://a.example/\tRed", "refused\t4\n"),
    (b"move\t9\t9\t9\t0", "refused\t5\t9\n"),
    (b"move\t2\t9\t9\t0", "refused\t7\t2\n"),
    (b"retitle\t9\tT\t0", "refused\t5\t9\n"),
    (b"retitle\t2\tT\t0", "refused\t7\t2\n"),
    (b"remove\t9", "refused\t5\t9\n"),
    (b"remove\t2", "refused\t7\t2\n"),
    (b"list\t9", "refused\t5\t9\n"),
];

// There are ids of pages.
const PAGES_LEFT: &[(&[u8], &str)] = &[
    (b"visit\thttps://a.example/\t1\t0", "refused\t13\t2\n"),
    (
        b"bookmark\t2\t0\thttps://a.example/\tA\t0",
        "refused\t13\t3\n",
    ),
    (b"tag\thttps://a.example/\tRed\t0", "refused\t13\t3\n"),
    (b"page\thttps://a.example/", "refused\t4\n"),
];

// There are ids of each kind, and no slot.
const IDS_LEFT: &[(&[u8], &str)] = &[
    (b"visit\thttps://a.example/\t1\t0", "refused\t12\t10\n"),
    (b"folder\t2\t0\tF\t0", "refused\t12\t8\n"),
    (b"separator\t2\t0\t0", "refused\t12\t7\n"),
    (
        b"bookmark\t2\t0\thttps://a.example/\tA\t0",
        "refused\t12\t11\n",
    ),
    (b"tag\thttps://a.example/\tRed\t0", "refused\t12\t12\n"),
    (b"page\thttps://a.example/", "refused\t4\n"),
    (b"list\t4", "rows\t0\n"),
];

#[test]
fn tells_what_is_wrong_before_ids(rt: HostRuntime) -> Result<(), Fail> {
    let rows = rows(rt.alloc(), END, END, END)?;
    talk(&rt, rt.alloc(), rows, 6, NOTHING_LEFT)
}

#[test]
fn tells_ids_before_slots(rt: HostRuntime) -> Result<(), Fail> {
    let rows = rows(rt.alloc(), 1, END, END)?;
    talk(&rt, rt.alloc(), rows, 6, PAGES_LEFT)
}

#[test]
fn tells_slots_last(rt: HostRuntime) -> Result<(), Fail> {
    let rows = rows(rt.alloc(), 1, 1, 7)?;
    talk(&rt, rt.alloc(), rows, 6, IDS_LEFT)
}

// A new page, its origin and its address, a folder and its name, and an entry: 12 slots in all.
const TAG_FITS: &[(&[u8], &str)] = &[
    (b"tag\thttps://a.example/\tRed\t0", "ok\n"),
    (b"tag\thttps://a.example/\tRed\t0", "refused\t15\n"),
    (b"tag\thttps://a.example/\tBlue\t0", "refused\t12\t15\n"),
    (b"tag\thttps://a.example/b\tRed\t0", "refused\t12\t15\n"),
    (b"title\thttps://a.example/\tT", "refused\t12\t13\n"),
    (b"untag\thttps://a.example/\tRed", "ok\n"),
    (b"separator\t2\t0\t0", "item\t9\n"),
];

#[test]
fn a_tag_fits_to_the_slot(rt: HostRuntime) -> Result<(), Fail> {
    let rows = rows(rt.alloc(), 1, 1, 7)?;
    talk(&rt, rt.alloc(), rows, 12, TAG_FITS)
}
