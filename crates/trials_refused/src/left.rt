// What a run may leave in which an allocation was refused.
use pl_desk::MemDesk;
use places::Status;
use std::alloc::Global;
use std::process::Abort;
use std::test::Fail;
use trials_desks::{copied, done, run_on};

pub const RUN: &[&str] = &["run", "s"];

// Lines whose replies tell the rows of a store.
const ASKED: &[u8] = b"stats\nquery\tplace:\nlist\t2\nlist\t3\nlist\t4\nlist\t5\nlist\t7\n";

/// What was said when some of the commands were performed, and what the file tells then.
#[derive(Drop)]
pub struct Left {
    said: Vec<u8>,
    told: Vec<u8>,
}

// The rows of the store in the desk's file.
fn told(alloc: Global, desk: &MemDesk) -> Result<Vec<u8>, Fail> {
    Ok(done(alloc, desk, RUN, ASKED)?.said().to_vec(alloc)?)
}

/// What is left behind none of the lines, and behind each.
pub fn behind_lines(alloc: Global, store: &MemDesk, lines: &[&[u8]]) -> Result<Vec<Left>, Fail> {
    let mut all = Vec::new(alloc);
    let mut said = Vec::new(alloc);
    let mut desk = copied(alloc, store, &[])?;
    all.push(left_by(alloc, &said, &desk)?)?;
    for line in lines {
        desk = done(alloc, &desk, RUN, line)?;
        said.extend_from_slice(desk.said())?;
        all.push(left_by(alloc, &said, &desk)?)?;
    }
    Ok(all)
}

/// What is left before these words did what they ask for, and behind it.
pub fn behind_words(
    alloc: Global,
    store: &MemDesk,
    words: &[&str],
    bytes: &[u8],
) -> Result<Vec<Left>, Fail> {
    let mut all = Vec::new(alloc);
    all.push(left_by(alloc, &[], store)?)?;
    let desk = done(alloc, store, words, bytes)?;
    all.push(left_by(alloc, desk.said(), &desk)?)?;
    Ok(all)
}

fn left_by(alloc: Global, said: &[u8], desk: &MemDesk) -> Result<Left, Fail> {
    Ok(Left {
        said: said.to_vec(alloc)?,
        told: told(alloc, desk)?,
    })
}

// Whether a run may end so. The reply that was begun when the desk's line did not grow is that of a
// command in the file; when its file did not grow, the file holds that command or does not.
fn may_end(status: Status, now: &Left, all: &[Left]) -> bool {
    let mut pairs = all.iter().zip(all.iter().skip(1));
    match status {
        Status::Done => all.last().is_some_and(|left| is_same(now, left)),
        Status::NoMemory => all.iter().any(|left| is_same(now, left)),
        Status::SayFault => pairs.any(|(before, after)| {
            now.told == after.told
                && now.said.starts_with(before.said.as_slice())
                && after.said.starts_with(now.said.as_slice())
        }),
        Status::DeviceFault => pairs.any(|(before, after)| {
            now.said == before.said && (now.told == before.told || now.told == after.told)
        }),
        _ => false,
    }
}

fn is_same(now: &Left, left: &Left) -> bool {
    now.said == left.said && now.told == left.told
}

/// A run by these words on a copy of the store ends with its rows, or as one may that was refused
/// memory.
pub fn expect_left(
    rt: &impl Abort,
    alloc: Global,
    store: &MemDesk,
    words: &[&str],
    bytes: &[u8],
    all: &[Left],
) -> Result<(), Fail> {
    let mut desk = copied(alloc, store, &[])?;
    let status = run_on(alloc, words, bytes, &mut desk);
    let now = left_by(alloc, desk.said(), &desk)?;
    assert!(rt; may_end(status, &now, all), "status {}", status.number());
    Ok(())
}
