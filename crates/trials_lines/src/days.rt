// A hundred pages over 120 days: what is told of each page on a day is what a new store tells that
// was at this day when it got the same rows.
ghost use Rattle.std.specs.Prelude.{◌<◌};

use pl_base::Txt;
use pl_store::SLOT_LIMIT;
use std::alloc::{AllocError, Global};
use std::process::Abort;
use std::test::Fail;
use trials_memory::{Memory, answered};

const PAGES: u64 = 100;

const VISITS: u64 = 400;

const LAST_DAY: u64 = 120;

// The nth visit: to any page, by any transition, in the first 150 days. A redirect comes from the
// visit before it.
fn visit_line(alloc: Global, n: u64) -> Result<String, AllocError>
    requires { n < 400 }
{
    let page = n % PAGES;
    let transition = 1 + (n + n / PAGES) % 9;
    let date = n * 37 % 150 * 86_400_000_000 + n;
    if n > 0 && (transition == 5 || transition == 6) {
        return format!(in alloc; "visit\thttps://p{page}.example/\t{transition}\t{date}\t{n}");
    }
    format!(in alloc; "visit\thttps://p{page}.example/\t{transition}\t{date}")
}

// The line was a command, and was not refused.
fn is_done(told: &Option<Txt>) -> bool {
    match told {
        Some(text) => !text.as_str().starts_with("refused"),
        None => false,
    }
}

// The store after a line that is not refused, and the text of the reply.
fn done(
    rt: &impl Abort,
    alloc: Global,
    memory: Memory,
    text: &str,
) -> Result<(Memory, Option<Txt>), Fail> {
    let (memory, told) = answered(alloc, memory, text.as_bytes())?;
    assert!(rt; is_done(&told), "{text}");
    Ok((memory, told))
}

// The store after a line that is not refused.
fn after(rt: &impl Abort, alloc: Global, memory: Memory, text: String) -> Result<Memory, Fail> {
    Ok(done(rt, alloc, memory, text.as_str())?.0)
}

fn visited(rt: &impl Abort, alloc: Global, memory: Memory, n: u64) -> Result<Memory, Fail>
    requires { n < 400 }
{
    let text = visit_line(alloc, n)?;
    after(rt, alloc, memory, text)
}

fn bookmarked(rt: &impl Abort, alloc: Global, memory: Memory, n: u64) -> Result<Memory, Fail> {
    let text = format!(in alloc; "bookmark\t2\tend\thttps://p{n}0.example/\t\t0")?;
    after(rt, alloc, memory, text)
}

fn on_day(rt: &impl Abort, alloc: Global, memory: Memory, day: u64) -> Result<Memory, Fail> {
    let text = format!(in alloc; "day\t{day}")?;
    after(rt, alloc, memory, text)
}

// The store with the visits, and with a bookmark of each tenth page.
fn filled(rt: &impl Abort, alloc: Global, memory: Memory) -> Result<Memory, Fail> {
    let mut memory = memory;
    for n in 0..VISITS {
        memory = visited(rt, alloc, memory, n)?;
    }
    for n in 0..10_u64 {
        memory = bookmarked(rt, alloc, memory, n)?;
    }
    Ok(memory)
}

// A new store that was at this day when it got the same rows.
fn new_on(rt: &impl Abort, alloc: Global, day: u64) -> Result<Memory, Fail> {
    let memory = Memory::opening(alloc, SLOT_LIMIT)?;
    let memory = on_day(rt, alloc, memory, day)?;
    filled(rt, alloc, memory)
}

fn are_equal(told: Option<Txt>, expected: Option<Txt>) -> bool {
    told == expected
}

// Both stores tell the same after a line.
fn tell_the_same_to(
    rt: &impl Abort,
    alloc: Global,
    stores: (Memory, Memory),
    text: String,
) -> Result<(Memory, Memory), Fail> {
    let (one, told) = done(rt, alloc, stores.0, text.as_str())?;
    let (other, expected) = done(rt, alloc, stores.1, text.as_str())?;
    assert!(rt; are_equal(told, expected), "{text}");
    Ok((one, other))
}

fn tell_the_same_of(
    rt: &impl Abort,
    alloc: Global,
    stores: (Memory, Memory),
    page: u64,
) -> Result<(Memory, Memory), Fail> {
    let text = format!(in alloc; "page\thttps://p{page}.example/")?;
    tell_the_same_to(rt, alloc, stores, text)
}

// Both stores tell the same of each page.
fn tell_the_same(
    rt: &impl Abort,
    alloc: Global,
    one: Memory,
    other: Memory,
) -> Result<Memory, Fail> {
    let mut stores = (one, other);
    for page in 0..PAGES {
        stores = tell_the_same_of(rt, alloc, stores, page)?;
    }
    Ok(stores.0)
}

// The store a day later, which tells the same as a new one.
fn aged(rt: &impl Abort, alloc: Global, memory: Memory, day: u64) -> Result<Memory, Fail> {
    let memory = on_day(rt, alloc, memory, day)?;
    let new = new_on(rt, alloc, day)?;
    tell_the_same(rt, alloc, memory, new)
}

#[test]
fn ages_as_a_new_store(rt: HostRuntime) -> Result<(), Fail> {
    let alloc = rt.alloc();
    let memory = Memory::opening(alloc, SLOT_LIMIT)?;
    let mut memory = filled(&rt, alloc, memory)?;
    for day in 1..=LAST_DAY {
        memory = aged(&rt, alloc, memory, day)?;
    }
    Ok(())
}
