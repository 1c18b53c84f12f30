// A folder that is 5,000 deep, and two with 5,000 children.
ghost use Rattle.std.specs.Prelude.{IfOk};
ghost use Rattle.pl_step.specs.Commands.{HasDates};

use crate::told::talked;
use pl_base::{ItemId, Micros, Txt};
use pl_link::Canon;
use pl_nbread::{FILE_LIMIT, read};
use pl_step::{Command, Reply};
use pl_store::SLOT_LIMIT;
use pl_tree::Place;
use std::alloc::Global;
use std::process::Abort;
use std::test::Fail;
use trials_memory::{Memory, stepped};

// The last of 5,000 items, the first of which is item 7.
const LAST: u32 = 5_006;

fn folder(alloc: Global, parent: u32) -> Result<Command, Fail>
    ensures { IfOk result HasDates }
{
    let title = Txt::copied(alloc, "")?;
    Ok(Command::Folder {
        parent: ItemId(parent),
        place: Place::End,
        title,
        date: Micros(0),
    })
}

fn is_item(reply: Reply, id: u32) -> bool {
    let is_item = reply == Reply::Item(ItemId(id));
    drop(reply);
    is_item
}

// The store with a new item, which has this id.
fn with_item(rt: &impl Abort, memory: Memory, command: Command, id: u32) -> Result<Memory, Fail>
    requires { HasDates command }
{
    let (memory, reply) = stepped(memory, command)?;
    assert!(rt; is_item(reply, id));
    Ok(memory)
}

fn with_folder(
    rt: &impl Abort,
    alloc: Global,
    memory: Memory,
    parent: u32,
    id: u32,
) -> Result<Memory, Fail> {
    let command = folder(alloc, parent)?;
    with_item(rt, memory, command, id)
}

// Each folder holds the next one.
fn deep(rt: &impl Abort, alloc: Global) -> Result<Memory, Fail> {
    let memory = Memory::opening(alloc, SLOT_LIMIT)?;
    let mut memory = with_folder(rt, alloc, memory, 2, 7)?;
    for id in 8..=LAST {
        memory = with_folder(rt, alloc, memory, id - 1, id)?;
    }
    Ok(memory)
}

// A bookmark of a page of its own, in front of the others in folder 7.
fn bookmark(alloc: Global, id: u32) -> Result<Command, Fail>
    ensures { IfOk result HasDates }
{
    let text = format!(in alloc; "https://a.example/{id}")?;
    let url = Canon::read(alloc, text.as_str())?;
    let title = Txt::copied(alloc, "A")?;
    Ok(Command::Bookmark {
        parent: ItemId(7),
        place: Place::Number(0),
        url,
        title,
        date: Micros(0),
    })
}

fn with_bookmark(rt: &impl Abort, alloc: Global, memory: Memory, id: u32) -> Result<Memory, Fail> {
    let command = bookmark(alloc, id)?;
    with_item(rt, memory, command, id)
}

// Folder 7 holds the other items.
fn wide(rt: &impl Abort, alloc: Global) -> Result<Memory, Fail> {
    let memory = Memory::opening(alloc, SLOT_LIMIT)?;
    let mut memory = with_folder(rt, alloc, memory, 2, 7)?;
    for id in 8..=LAST {
        memory = with_bookmark(rt, alloc, memory, id)?;
    }
    Ok(memory)
}

// A bookmark file with a folder that holds the other items, all of which have one page.
fn file(alloc: Global) -> Result<String, Fail> {
    let head = "<!DOCTYPE NETSCAPE-Bookmark-file-1>\n<DL><p>\n<DT><H3>F</H3>\n<DL><p>\n";
    let mut text = String::from_str(alloc, head)?;
    for _ in 8..=LAST {
        text.push_str("<DT><A HREF=\"https://a.example/\">A</A>\n")?;
    }
    text.push_str("</DL><p>\n</DL><p>\n")?;
    Ok(text)
}

fn import(alloc: Global) -> Result<Command, Fail>
    ensures { IfOk result HasDates }
{
    let text = file(alloc)?;
    if text.len() >= FILE_LIMIT {
        return Err("too long".into());
    }
    let tree = read(alloc, text.as_bytes()).map_err(|_| "no tree")?;
    Ok(Command::Import(tree))
}

fn is_imported(reply: Reply) -> bool {
    let is_imported = reply
        == Reply::Imported {
            items: 5_000,
            tags: 0,
            skipped: 0,
        };
    drop(reply);
    is_imported
}

// The same by one import, and the bookmarks are of one page.
fn wide_of_one_page(rt: &impl Abort, alloc: Global) -> Result<Memory, Fail> {
    let memory = Memory::opening(alloc, SLOT_LIMIT)?;
    let (memory, reply) = stepped(memory, import(alloc)?)?;
    assert!(rt; is_imported(reply));
    Ok(memory)
}

// Inside is told from the bottom, and all goes at once.
const DEEP: &[(&[u8], &str)] = &[
    (b"move\t7\t5006\tend\t0", "refused\t9\t7\n"),
    (b"remove\t7", "ok\n"),
    (b"list\t5006", "refused\t5\t5006\n"),
    (b"list\t8", "refused\t5\t8\n"),
    (b"list\t2", "rows\t0\n"),
    (b"folder\t2\t0\tF\t0", "item\t5007\n"),
];

#[test]
fn removes_a_deep_folder(rt: HostRuntime) -> Result<(), Fail> {
    let memory = deep(&rt, rt.alloc())?;
    let _ = talked(&rt, rt.alloc(), memory, DEEP)?;
    Ok(())
}

const WIDE: &[(&[u8], &str)] = &[
    (
        b"page\thttps://a.example/5006",
        "page\t4999\t140\t0\t-\t0\t0\t1\thttps://a.example/5006\t\t\n",
    ),
    (b"remove\t7", "ok\n"),
    (b"list\t5006", "refused\t5\t5006\n"),
    (b"page\thttps://a.example/5006", "refused\t4\n"),
    (b"list\t2", "rows\t0\n"),
];

#[test]
fn removes_a_wide_folder(rt: HostRuntime) -> Result<(), Fail> {
    let memory = wide(&rt, rt.alloc())?;
    let _ = talked(&rt, rt.alloc(), memory, WIDE)?;
    Ok(())
}

const OF_ONE_PAGE: &[(&[u8], &str)] = &[
    (
        b"page\thttps://a.example/",
        "page\t1\t140\t0\t-\t0\t0\t1\thttps://a.example/\t\t\n",
    ),
    (b"remove\t7", "ok\n"),
    (b"list\t5006", "refused\t5\t5006\n"),
    (b"page\thttps://a.example/", "refused\t4\n"),
    (b"list\t2", "rows\t0\n"),
];

#[test]
fn removes_the_items_of_one_page(rt: HostRuntime) -> Result<(), Fail> {
    let memory = wide_of_one_page(&rt, rt.alloc())?;
    let _ = talked(&rt, rt.alloc(), memory, OF_ONE_PAGE)?;
    Ok(())
}
