// Sessions over files in memory, and stores without a file.
ghost use Rattle.std.specs.Prelude.{◌≡◌, ◌<◌, IfOk};
ghost use Rattle.pl_step.specs.Commands.{HasDates};

mod openings;
mod stops;

use pl_base::{
    IdKind, Ids, Micros, NoMemory, PAGE_SIZE, PageId, Refusal, Steps, Transition, Txt, VisitId,
};
use pl_desk::MemDesk;
use pl_engine::Engine;
use pl_link::Canon;
use pl_plain::Flat;
use pl_step::{Command, Reply};
use pl_store::{Ended, Memory, SLOT_LIMIT, Session, create, reopen};
use std::alloc::Global;
use std::marker::Brand;
use std::process::Abort;
use std::sync::ledger::{Blank, Ledger};
use std::test::Fail;
use trials_sessions::{FIRST_REPLY, SECOND_REPLY, first, perform, second};

// An engine over rows that have given all ids of pages.
fn without_page_ids<L: Ledger>(alloc: Global, steps: &mut Steps<L>) -> Result<Engine<Flat>, Fail> {
    let ids = Ids {
        page: Ids::END,
        ..Ids::OPENING
    };
    let rows = Flat::with_ids(alloc, ids)?;
    Ok(Engine::over(alloc, rows, SLOT_LIMIT, steps)?)
}

fn expect_no_page_ids<L: Ledger>(
    rt: &impl Abort,
    alloc: Global,
    command: &Command,
    blank: Blank,
) -> Result<(), Fail>
    requires dates { HasDates command.now }
    requires name { blank.name ≡ L.name }
    requires parts { blank.parts ≡ L.parts }
    requires some { 0 < blank.parts }
{
    let mut steps = Steps::<L>::none(blank);
    let engine = without_page_ids(alloc, &mut steps)?;
    let (_, reply) = engine.apply(command, &mut steps)?;
    let is_refused = reply == Reply::Refused(Refusal::NoIds(IdKind::Page));
    drop(reply);
    assert!(rt; is_refused);
    Ok(())
}

// The store after a command, which has this reply.
fn expect_step(
    rt: &impl Abort,
    memory: Memory,
    command: &Command,
    reply: &Reply,
) -> Result<Memory, Fail>
    requires { HasDates command.now }
{
    let (memory, answer) = memory.step(command)?;
    let is_same = answer == *reply;
    drop(answer);
    assert!(rt; is_same);
    Ok(memory)
}

fn expect_first(
    rt: &impl Abort,
    alloc: Global,
    memory: Memory,
    reply: &Reply,
) -> Result<Memory, Fail> {
    let command = first(alloc)?;
    let stepped = expect_step(rt, memory, &command, reply);
    drop(command);
    stepped
}

fn expect_second(
    rt: &impl Abort,
    alloc: Global,
    memory: Memory,
    reply: &Reply,
) -> Result<Memory, Fail> {
    let command = second(alloc)?;
    let stepped = expect_step(rt, memory, &command, reply);
    drop(command);
    stepped
}

// A new store takes 6 slots. The visit adds an origin, a page, a slot for its URL and itself.
const FULL: Reply = Reply::Refused(Refusal::Full(10));

#[test]
fn a_store_in_memory_has_a_limit(rt: HostRuntime) -> Result<(), Fail> {
    let alloc = rt.alloc();
    let _ = expect_first(&rt, alloc, Memory::opening(alloc, 8)?, &FULL)?;
    let _ = expect_first(&rt, alloc, Memory::opening(alloc, 10)?, &FIRST_REPLY)?;
    Ok(())
}

#[test]
fn a_store_in_memory_answers(rt: HostRuntime) -> Result<(), Fail> {
    let alloc = rt.alloc();
    let memory = Memory::opening(alloc, SLOT_LIMIT)?;
    let memory = expect_first(&rt, alloc, memory, &FIRST_REPLY)?;
    let _ = expect_second(&rt, alloc, memory, &SECOND_REPLY)?;
    Ok(())
}

#[test]
fn an_engine_without_ids_refuses(rt: HostRuntime) -> Result<(), Fail> {
    let alloc = rt.alloc();
    let command = first(alloc)?;
    let expected = expect_no_page_ids::<Brand>(&rt, alloc, &command, Blank::new(1));
    drop(command);
    expected
}

// The session after a command, which has this reply.
fn expect_performed(
    rt: &impl Abort,
    session: Session,
    command: &Command,
    reply: &Reply,
    desk: &mut MemDesk,
) -> Result<Session, Fail>
    requires { HasDates command.now }
{
    let (session, answer) = perform(session, command, desk)?;
    let is_same = answer == *reply;
    drop(answer);
    assert!(rt; is_same);
    Ok(session)
}

fn perform_first(
    rt: &impl Abort,
    alloc: Global,
    session: Session,
    reply: &Reply,
    desk: &mut MemDesk,
) -> Result<Session, Fail> {
    let command = first(alloc)?;
    let performed = expect_performed(rt, session, &command, reply, desk);
    drop(command);
    performed
}

fn perform_second(
    rt: &impl Abort,
    alloc: Global,
    session: Session,
    desk: &mut MemDesk,
) -> Result<Session, Fail> {
    let command = second(alloc)?;
    let performed = expect_performed(rt, session, &command, &SECOND_REPLY, desk);
    drop(command);
    performed
}

// A refused command leaves nothing to commit.
#[test]
fn a_refusal_makes_no_call(rt: HostRuntime) -> Result<(), Fail> {
    let alloc = rt.alloc();
    let mut desk = MemDesk::holding(alloc, &[], &[])?;
    let _ = create(alloc, &mut desk)?;
    let session = reopen(alloc, &mut desk, 8)?;
    let calls = desk.calls();
    let _ = perform_first(&rt, alloc, session, &FULL, &mut desk)?;
    assert_eq!(rt; desk.calls(), calls);
    Ok(())
}

fn title_command(alloc: Global) -> Result<Command, Fail>
    ensures { IfOk result HasDates }
{
    let url = Canon::read(alloc, "https://a.example/")?;
    let text = Txt::copied(alloc, "A")?;
    Ok(Command::Title { url, text })
}

// The first page gets a title.
fn give_title(
    rt: &impl Abort,
    alloc: Global,
    session: Session,
    desk: &mut MemDesk,
) -> Result<Session, Fail> {
    let command = title_command(alloc)?;
    let performed = expect_performed(rt, session, &command, &Reply::Done, desk);
    drop(command);
    performed
}

fn page_command(alloc: Global) -> Result<Command, Fail>
    ensures { IfOk result HasDates }
{
    let url = Canon::read(alloc, "https://a.example/")?;
    Ok(Command::Page { url })
}

fn expect_page(
    rt: &impl Abort,
    session: Session,
    command: &Command,
    desk: &mut MemDesk,
) -> Result<(), Fail>
    requires { HasDates command.now }
{
    let (_, reply) = perform(session, command, desk)?;
    let is_page = matches!(reply, Reply::Page { .. });
    drop(reply);
    assert!(rt; is_page);
    Ok(())
}

fn ask_page(
    rt: &impl Abort,
    alloc: Global,
    session: Session,
    desk: &mut MemDesk,
) -> Result<(), Fail> {
    let command = page_command(alloc)?;
    let asked = expect_page(rt, session, &command, desk);
    drop(command);
    asked
}

// A title that stands already is no change, and what is asked of a page is none.
#[test]
fn what_changes_nothing_makes_no_call(rt: HostRuntime) -> Result<(), Fail> {
    let alloc = rt.alloc();
    let mut desk = MemDesk::holding(alloc, &[], &[])?;
    let session = create(alloc, &mut desk)?;
    let session = perform_first(&rt, alloc, session, &FIRST_REPLY, &mut desk)?;
    let session = give_title(&rt, alloc, session, &mut desk)?;
    let calls = desk.calls();
    let session = give_title(&rt, alloc, session, &mut desk)?;
    ask_page(&rt, alloc, session, &mut desk)?;
    assert_eq!(rt; desk.calls(), calls);
    Ok(())
}
