// Restores where rows, ids or slots are spent: all of it is asked for before anything changes.
ghost use Rattle.std.specs.Prelude.{◌≡◌, ◌<◌, ◌≤◌, IfOk};
ghost use Rattle.pl_base.specs.Live.{slot_limit};
ghost use Rattle.pl_base.specs.Rows.{IsSound};
ghost use Rattle.pl_plain.specs.Flat.{kept_of};
ghost use Rattle.pl_step.specs.Commands.{HasDates};

use crate::stores::told;
use pl_backup::read;
use pl_base::{Ids, SLOT_LIMIT, Steps, Txt};
use pl_engine::Engine;
use pl_nbread::FILE_LIMIT;
use pl_plain::Flat;
use pl_step::Command;
use std::alloc::Global;
use std::marker::Brand;
use std::process::Abort;
use std::sync::ledger::{Blank, Ledger};
use std::test::Fail;

// The restore of what stands in the toolbar of a backup.
fn restore_of(alloc: Global, toolbar: &str) -> Result<Command, Fail>
    ensures { IfOk result HasDates }
{
    let text = format!(in alloc;
        "{{\"children\":[{{\"guid\":\"toolbar_____\",\"children\":[{toolbar}]}}]}}"
    )?;
    if text.len() >= FILE_LIMIT {
        return Err("too long".into());
    }
    let tree = read(alloc, text.as_bytes()).map_err(|_| "no backup")?;
    Ok(Command::Restore(tree))
}

// The reply to a restore on rows that may take so many slots.
fn reply<L: Ledger>(
    alloc: Global,
    rows: Flat,
    limit: u32,
    toolbar: &str,
    steps: &mut Steps<L>,
) -> Result<Txt, Fail>
    requires sound { IsSound (kept_of rows) }
    requires limit { limit ≤ slot_limit }
{
    let engine = Engine::over(alloc, rows, limit, steps)?;
    let command = restore_of(alloc, toolbar)?;
    let done = told(alloc, engine, &command, steps);
    drop(command);
    Ok(done?.1)
}

// The id that is never given.
const END: u32 = 4_294_967_295;

// Two pages of one origin, one of which has a tag: four items and 6 + 4 + 1 + 4 + 1 slots.
const TOOLBAR: &str = r#"{"typeCode":1,"uri":"https://a.example/","tags":"T"},
    {"typeCode":1,"uri":"https://a.example/1"}"#;

const RESTORED: &str = "restored\titems\t2\ttags\t1\tskipped\t0\n";

// The next ids of a store without bookmarks, its limit of slots, and the reply: one below, exactly
// and one above what the restore takes, each cause in front of those behind it.
const CASES: &[(u32, u32, u32, &str)] = &[
    (END - 3, END - 5, 17, RESTORED),
    (END - 2, END - 4, 16, RESTORED),
    (END - 1, END - 3, 15, "refused\t13\t1\n"),
    (END - 2, END - 3, 15, "refused\t13\t3\n"),
    (END - 2, END - 4, 15, "refused\t12\t16\n"),
];

fn check_ids_and_slots<L: Ledger>(rt: &impl Abort, alloc: Global, blank: Blank) -> Result<(), Fail>
    requires name { blank.name ≡ L.name }
    requires parts { blank.parts ≡ L.parts }
    requires some { 0 < blank.parts }
{
    let mut steps = Steps::<L>::none(blank);
    for (page, item, limit, ends) in CASES {
        let ids = Ids {
            page: *page,
            visit: 1,
            item: *item,
        };
        let rows = Flat::with_ids(alloc, ids)?;
        let said = reply(alloc, rows, *limit, TOOLBAR, &mut steps)?;
        assert_eq!(rt; said.as_str(), *ends);
    }
    Ok(())
}

#[test]
fn ids_and_slots_are_asked_for_first(rt: HostRuntime) -> Result<(), Fail> {
    check_ids_and_slots::<Brand>(&rt, rt.alloc(), Blank::new(1))
}

// A separator, and so many more.
fn separators(alloc: Global, more: usize) -> Result<String, Fail> {
    let others = ",{\"typeCode\":3}".repeat(alloc, more)?;
    Ok(format!(in alloc; "{{\"typeCode\":3}}{others}")?)
}

// How many rows a tree has beside its first one, and the reply.
const ROWS: &[(usize, &str)] = &[
    (49_998, "restored\titems\t49999\ttags\t0\tskipped\t0\n"),
    (49_999, "restored\titems\t50000\ttags\t0\tskipped\t0\n"),
    (50_000, "refused\t19\t50001\n"),
];

fn check_rows<L: Ledger>(rt: &impl Abort, alloc: Global, blank: Blank) -> Result<(), Fail>
    requires name { blank.name ≡ L.name }
    requires parts { blank.parts ≡ L.parts }
    requires some { 0 < blank.parts }
{
    let mut steps = Steps::<L>::none(blank);
    for (more, ends) in ROWS {
        let rows = separators(alloc, *more)?;
        let opening = Flat::opening(alloc)?;
        let said = reply(alloc, opening, SLOT_LIMIT, rows.as_str(), &mut steps)?;
        assert_eq!(rt; said.as_str(), *ends);
    }
    Ok(())
}

#[test]
fn more_rows_than_fifty_thousand_are_refused(rt: HostRuntime) -> Result<(), Fail> {
    check_rows::<Brand>(&rt, rt.alloc(), Blank::new(1))
}
