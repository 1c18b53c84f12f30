// Moves within a folder and between folders.
ghost use Rattle.pl_step.specs.Commands.{HasDates};

use crate::told::talked;
use pl_base::{ItemId, Micros};
use pl_step::{Command, Reply};
use pl_store::SLOT_LIMIT;
use pl_tree::Place;
use std::alloc::Global;
use std::process::Abort;
use std::test::Fail;
use trials_memory::{Memory, stepped};

// Folder 7, with the separators 8 to 12.
const FIVE: &[(&[u8], &str)] = &[
    (b"folder\t2\tend\tF\t0", "item\t7\n"),
    (b"separator\t7\tend\t0", "item\t8\n"),
    (b"separator\t7\tend\t0", "item\t9\n"),
    (b"separator\t7\tend\t0", "item\t10\n"),
    (b"separator\t7\tend\t0", "item\t11\n"),
    (b"separator\t7\tend\t0", "item\t12\n"),
];

// The item, the position that it goes to, and the order then.
const MOVES: &[(u32, u32, [u32; 5])] = &[
    (8, 0, [8, 9, 10, 11, 12]),
    (8, 1, [9, 8, 10, 11, 12]),
    (8, 2, [9, 10, 8, 11, 12]),
    (8, 3, [9, 10, 11, 8, 12]),
    (8, 4, [9, 10, 11, 12, 8]),
    (9, 0, [9, 8, 10, 11, 12]),
    (9, 1, [8, 9, 10, 11, 12]),
    (9, 2, [8, 10, 9, 11, 12]),
    (9, 3, [8, 10, 11, 9, 12]),
    (9, 4, [8, 10, 11, 12, 9]),
    (10, 0, [10, 8, 9, 11, 12]),
    (10, 1, [8, 10, 9, 11, 12]),
    (10, 2, [8, 9, 10, 11, 12]),
    (10, 3, [8, 9, 11, 10, 12]),
    (10, 4, [8, 9, 11, 12, 10]),
    (11, 0, [11, 8, 9, 10, 12]),
    (11, 1, [8, 11, 9, 10, 12]),
    (11, 2, [8, 9, 11, 10, 12]),
    (11, 3, [8, 9, 10, 11, 12]),
    (11, 4, [8, 9, 10, 12, 11]),
    (12, 0, [12, 8, 9, 10, 11]),
    (12, 1, [8, 12, 9, 10, 11]),
    (12, 2, [8, 9, 12, 10, 11]),
    (12, 3, [8, 9, 10, 12, 11]),
    (12, 4, [8, 9, 10, 11, 12]),
];

fn moving(item: u32, position: u32) -> Command
    ensures { HasDates result }
{
    Command::Move {
        item: ItemId(item),
        parent: ItemId(7),
        place: Place::Number(position),
        date: Micros(1),
    }
}

fn is_done(reply: Reply) -> bool {
    let is_done = reply == Reply::Done;
    drop(reply);
    is_done
}

// The store after the move.
fn moved(rt: &impl Abort, memory: Memory, item: u32, position: u32) -> Result<Memory, Fail> {
    let (memory, reply) = stepped(memory, moving(item, position))?;
    assert!(rt; is_done(reply));
    Ok(memory)
}

fn is_in_order(reply: &Reply, order: &[u32]) -> bool {
    match reply {
        Reply::List(rows) => rows
            .as_slice()
            .iter()
            .map(|row| row.id.0)
            .eq(order.iter().copied()),
        _ => false,
    }
}

// The children of folder 7 stand in this order.
fn expect_order(rt: &impl Abort, memory: Memory, order: &[u32]) -> Result<(), Fail> {
    let (_, reply) = memory.step(&Command::List { item: ItemId(7) })?;
    assert!(rt; is_in_order(&reply, order));
    Ok(())
}

fn five(rt: &impl Abort, alloc: Global) -> Result<Memory, Fail> {
    talked(rt, alloc, Memory::opening(alloc, SLOT_LIMIT)?, FIVE)
}

#[test]
fn moves_from_each_place_to_each(rt: HostRuntime) -> Result<(), Fail> {
    for (item, position, order) in MOVES {
        let memory = five(&rt, rt.alloc())?;
        let memory = moved(&rt, memory, *item, *position)?;
        expect_order(&rt, memory, order)?;
    }
    Ok(())
}

// The end, one past it, and another folder with the whole of what is below.
const BETWEEN: &[(&[u8], &str)] = &[
    (b"move\t8\t7\tend\t3", "ok\n"),
    (b"move\t8\t7\t5\t3", "refused\t8\t5\t4\n"),
    (b"folder\t3\t0\tT\t0", "item\t13\n"),
    (b"separator\t13\t0\t0", "item\t14\n"),
    (b"move\t10\t13\t2\t3", "refused\t8\t2\t1\n"),
    (b"move\t10\t13\t1\t3", "ok\n"),
    (b"move\t13\t7\t0\t3", "ok\n"),
    (b"move\t12\t13\t0\t3", "ok\n"),
    (
        b"list\t7",
        "rows\t4\nfolder\t13\tT\t\nseparator\t9\t\t\nseparator\t11\t\t\nseparator\t8\t\t\n",
    ),
    (
        b"list\t13",
        "rows\t3\nseparator\t12\t\t\nseparator\t14\t\t\nseparator\t10\t\t\n",
    ),
    (b"list\t3", "rows\t0\n"),
];

#[test]
fn moves_between_folders(rt: HostRuntime) -> Result<(), Fail> {
    let memory = five(&rt, rt.alloc())?;
    let _ = talked(&rt, rt.alloc(), memory, BETWEEN)?;
    Ok(())
}

// To each root, from each root, into itself, its child, and what is below that.
const ROOTS: &[(&[u8], &str)] = &[
    (b"move\t7\t1\tend\t3", "refused\t7\t1\n"),
    (b"move\t7\t2\tend\t3", "ok\n"),
    (b"move\t7\t3\tend\t3", "ok\n"),
    (b"move\t7\t4\tend\t3", "refused\t7\t4\n"),
    (b"move\t7\t5\tend\t3", "ok\n"),
    (b"move\t7\t6\tend\t3", "ok\n"),
    (b"list\t5", "rows\t0\n"),
    (b"list\t6", "rows\t1\nfolder\t7\tF\t\n"),
    (b"move\t1\t2\tend\t3", "refused\t7\t1\n"),
    (b"move\t2\t3\tend\t3", "refused\t7\t2\n"),
    (b"move\t3\t2\tend\t3", "refused\t7\t3\n"),
    (b"move\t4\t2\tend\t3", "refused\t7\t4\n"),
    (b"move\t5\t2\tend\t3", "refused\t7\t5\n"),
    (b"move\t6\t7\tend\t3", "refused\t7\t6\n"),
    (b"move\t7\t7\tend\t3", "refused\t9\t7\n"),
    (b"folder\t7\tend\tG\t0", "item\t13\n"),
    (b"folder\t13\tend\tH\t0", "item\t14\n"),
    (b"move\t7\t13\t0\t3", "refused\t9\t7\n"),
    (b"move\t7\t14\t9\t3", "refused\t9\t7\n"),
    (b"move\t13\t14\tend\t3", "refused\t9\t13\n"),
    (b"move\t14\t7\t0\t3", "ok\n"),
    (b"move\t13\t14\tend\t3", "ok\n"),
];

#[test]
fn moves_to_roots_and_into_itself(rt: HostRuntime) -> Result<(), Fail> {
    let memory = five(&rt, rt.alloc())?;
    let _ = talked(&rt, rt.alloc(), memory, ROOTS)?;
    Ok(())
}
