// The whole tree of a store in place of the bookmarks of others, once and again.
ghost use Rattle.std.specs.Prelude.{◌≡◌, ◌<◌, IfOk};
ghost use Rattle.pl_base.specs.Rows.{IsSound};
ghost use Rattle.pl_step.specs.Commands.{HasDates};

use crate::cases::FULL;
use crate::stores::{engine_behind, told, told_line};
use pl_backup::{read, text};
use pl_base::{Rows, Steps, Txt};
use pl_engine::Engine;
use pl_linked::Linked;
use pl_nbread::FILE_LIMIT;
use pl_plain::Flat;
use pl_step::Command;
use std::alloc::Global;
use std::marker::Brand;
use std::process::Abort;
use std::sync::ledger::{Blank, Ledger};
use std::test::Fail;

// The lines of a store, and lines with their replies once the tree stands there.
struct Onto {
    lines: &'static [&'static str],
    told: &'static [(&'static str, &'static str)],
}

// Two bookmarks, one of which has a tag. The page that had the tag alone goes, if it has no visit.
const RESTORED: &str = "restored\titems\t2\ttags\t1\tskipped\t0\n";

const ONTO: &[Onto] = &[
    Onto {
        lines: &[],
        told: &[(
            "stats",
            "stats\tpages\t2\tvisits\t0\titems\t10\torigins\t2\tsum\t280\tslots\t18\n",
        )],
    },
    // The same store: its pages keep their ids, and the visited one its title.
    Onto {
        lines: FULL,
        told: &[
            (
                "page\thttps://a.example/",
                "page\t1\t100\t1\t0\t0\t0\t0\thttps://a.example/\tA\t\n",
            ),
            (
                "page\thttps://a.example/1",
                "page\t2\t140\t0\t-\t0\t0\t1\thttps://a.example/1\t\t\n",
            ),
            (
                "page\thttps://b.example/",
                "page\t3\t140\t0\t-\t0\t0\t1\thttps://b.example/\t\tRed\n",
            ),
            ("page\thttps://c.example/", "refused\t4\n"),
        ],
    },
    // A typed page whose visits went and which had a bookmark comes back as it was. A visited one
    // stays without its bookmark and its tag, and one that had a bookmark alone goes.
    Onto {
        lines: &[
            "visit\thttps://b.example/\t2\t0",
            "bookmark\t5\tend\thttps://b.example/\tB\t0",
            "forget\thttps://b.example/",
            "visit\thttps://c.example/\t1\t0",
            "bookmark\t2\tend\thttps://c.example/\t\t0",
            "tag\thttps://c.example/\tblue\t0",
            "folder\t3\tend\tF\t0",
            "bookmark\t11\tend\thttps://z.example/\t\t0",
        ],
        told: &[
            (
                "page\thttps://b.example/",
                "page\t1\t340\t0\t-\t1\t0\t1\thttps://b.example/\t\tRed\n",
            ),
            (
                "page\thttps://c.example/",
                "page\t2\t100\t1\t0\t0\t0\t0\thttps://c.example/\t\t\n",
            ),
            ("page\thttps://z.example/", "refused\t4\n"),
            (
                "page\thttps://a.example/1",
                "page\t4\t140\t0\t-\t0\t0\t1\thttps://a.example/1\t\t\n",
            ),
        ],
    },
];

// The backup of a store.
fn backup<R: Rows + Drop, L: Ledger>(
    alloc: Global,
    engine: &Engine<R>,
    steps: &mut Steps<L>,
) -> Result<Txt, Fail> {
    Ok(text(alloc, &engine.whole_tree(steps)?)?)
}

// The restore of a backup.
fn restore_of(alloc: Global, text: &str) -> Result<Command, Fail>
    ensures { IfOk result HasDates }
{
    if text.len() >= FILE_LIMIT {
        return Err("too long".into());
    }
    let tree = read(alloc, text.as_bytes()).map_err(|_| "no backup")?;
    Ok(Command::Restore(tree))
}

// The engine after the restore of the backup, which its store has then.
fn restored<R: Rows + Drop, L: Ledger>(
    rt: &impl Abort,
    alloc: Global,
    engine: Engine<R>,
    from: &str,
    steps: &mut Steps<L>,
) -> Result<Engine<R>, Fail> {
    let command = restore_of(alloc, from)?;
    let done = told(alloc, engine, &command, steps);
    drop(command);
    let (engine, said) = done?;
    assert_eq!(rt; said.as_str(), RESTORED);
    let again = backup(alloc, &engine, steps)?;
    assert_eq!(rt; again.as_str(), from);
    Ok(engine)
}

fn expect_told<R: Rows + Drop, L: Ledger>(
    rt: &impl Abort,
    alloc: Global,
    engine: Engine<R>,
    lines: &[(&str, &str)],
    steps: &mut Steps<L>,
) -> Result<Engine<R>, Fail> {
    let mut engine = engine;
    for (line, reply) in lines {
        let (next, said) = told_line(alloc, engine, line, steps)?;
        assert_eq!(rt; said.as_str(), *reply);
        engine = next;
    }
    Ok(engine)
}

fn expect_restored<R: Rows + Drop, L: Ledger>(
    rt: &impl Abort,
    alloc: Global,
    rows: R,
    onto: &Onto,
    from: &str,
    steps: &mut Steps<L>,
) -> Result<(), Fail>
    requires { IsSound (R.kept rows) }
{
    let engine = engine_behind(alloc, rows, onto.lines, steps)?;
    let engine = restored(rt, alloc, engine, from, steps)?;
    let engine = expect_told(rt, alloc, engine, onto.told, steps)?;
    let engine = restored(rt, alloc, engine, from, steps)?;
    expect_told(rt, alloc, engine, onto.told, steps)?;
    Ok(())
}

fn check<L: Ledger>(rt: &impl Abort, alloc: Global, blank: Blank) -> Result<(), Fail>
    requires name { blank.name ≡ L.name }
    requires parts { blank.parts ≡ L.parts }
    requires some { 0 < blank.parts }
{
    let mut steps = Steps::<L>::none(blank);
    let full = engine_behind(alloc, Flat::opening(alloc)?, FULL, &mut steps)?;
    let from = backup(alloc, &full, &mut steps)?;
    for onto in ONTO {
        let from = from.as_str();
        expect_restored(rt, alloc, Flat::opening(alloc)?, onto, from, &mut steps)?;
        expect_restored(rt, alloc, Linked::opening(alloc)?, onto, from, &mut steps)?;
    }
    Ok(())
}

#[test]
fn a_tree_comes_onto_other_stores(rt: HostRuntime) -> Result<(), Fail> {
    check::<Brand>(&rt, rt.alloc(), Blank::new(1))
}
