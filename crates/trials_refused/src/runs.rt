// Scripts, an import and an export: the whole of each, or what a refused allocation leaves of it.
use crate::left::{RUN, behind_lines, behind_words, expect_left};
use pl_desk::MemDesk;
use std::alloc::Global;
use std::process::Abort;
use std::test::Fail;
use trials_desks::{WORKED, done, new_store};

const HISTORY: &[&[u8]] = &[
    b"visit\thttps://a.example/\t2\t0\n",
    b"visit\tHTTPS://B.example\t1\t1\n",
    b"visit\thttps://c.example/\t5\t2\t1\n",
    b"title\thttps://b.example/\tB\n",
    b"visit\tno url\t1\t0\n",
    b"forget\thttps://a.example/\n",
    b"stats\n",
];

const BOOKMARKS: &[&[u8]] = &[
    b"folder\t2\tend\tF\t0\n",
    b"bookmark\t7\tend\thttps://a.example/\tA\t0\n",
    b"tag\thttps://a.example/\tred\t0\n",
    b"move\t8\t3\t0\t1\n",
    b"remove\t7\n",
    b"query\tplace:queryType=1\n",
];

const DAYS: &[&[u8]] = &[
    b"visit\thttps://a.example/\t1\t0\n",
    b"day\t30\n",
    b"visit\thttps://b.example/\t1\t2592000000000\n",
    b"expire\t30\n",
    b"bar\t10\tb\n",
];

fn script(alloc: Global, lines: &[&[u8]]) -> Result<Vec<u8>, Fail> {
    let mut script = Vec::new(alloc);
    for line in lines {
        script.extend_from_slice(line)?;
    }
    Ok(script)
}

fn expect_script(rt: &impl Abort, alloc: Global, lines: &[&[u8]]) -> Result<(), Fail> {
    let store = new_store(alloc, &[])?;
    let all = behind_lines(alloc, &store, lines)?;
    let script = script(alloc, lines)?;
    expect_left(rt, alloc, &store, RUN, script.as_slice(), &all)
}

#[test]
fn history_is_kept_through_the_last_reply(rt: HostRuntime) -> Result<(), Fail> {
    expect_script(&rt, rt.alloc(), HISTORY)
}

#[test]
fn bookmarks_are_kept_through_the_last_reply(rt: HostRuntime) -> Result<(), Fail> {
    expect_script(&rt, rt.alloc(), BOOKMARKS)
}

#[test]
fn days_are_kept_through_the_last_reply(rt: HostRuntime) -> Result<(), Fail> {
    expect_script(&rt, rt.alloc(), DAYS)
}

#[test]
fn an_import_is_whole_or_nothing(rt: HostRuntime) -> Result<(), Fail> {
    let alloc = rt.alloc();
    let store = new_store(alloc, &[])?;
    let words = &["import", "s"];
    let all = behind_words(alloc, &store, words, WORKED.as_bytes())?;
    expect_left(&rt, alloc, &store, words, WORKED.as_bytes(), &all)
}

// A store with bookmarks.
fn imported(alloc: Global) -> Result<MemDesk, Fail> {
    let store = new_store(alloc, &[])?;
    done(alloc, &store, &["import", "s"], WORKED.as_bytes())
}

#[test]
fn an_export_changes_nothing(rt: HostRuntime) -> Result<(), Fail> {
    let alloc = rt.alloc();
    let store = imported(alloc)?;
    let words = &["export", "s"];
    let all = behind_words(alloc, &store, words, b"")?;
    expect_left(&rt, alloc, &store, words, b"", &all)
}

#[test]
fn a_backup_changes_nothing(rt: HostRuntime) -> Result<(), Fail> {
    let alloc = rt.alloc();
    let store = imported(alloc)?;
    let words = &["backup", "s"];
    let all = behind_words(alloc, &store, words, b"")?;
    expect_left(&rt, alloc, &store, words, b"", &all)
}
