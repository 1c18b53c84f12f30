// A stop of the machine within each call of two commits.
ghost use Rattle.pl_step.specs.Commands.{HasDates};

use super::*;

// What a stop leaves in the bytes that may hold anything.
const FILLERS: [u8; 3] = [0, 1, 255];

fn visit_in(reply: &Reply) -> Option<VisitId> {
    match reply {
        Reply::Visit { visit, .. } => Some(*visit),
        _ => None,
    }
}

// The id of the visit that the session would answer.
fn next_visit(session: Session, command: &Command) -> Result<VisitId, Fail>
    requires { HasDates command.now }
{
    let (_, reply) = session.prepare(command)?;
    let visit = visit_in(&reply);
    drop(reply);
    Ok(visit.ok_or("no visit")?)
}

fn next_first(alloc: Global, session: Session) -> Result<VisitId, Fail> {
    let command = first(alloc)?;
    let next = next_visit(session, &command);
    drop(command);
    next
}

// How many commands the file holds, by the id of the visit that a session over it answers next.
fn commands_in(alloc: Global, desk: &mut MemDesk) -> Result<u32, Fail> {
    let session = reopen(alloc, desk, SLOT_LIMIT)?;
    let next = next_first(alloc, session)?;
    Ok(next.0.saturating_sub(1))
}

// A stop within this call leaves as many commands as were committed, or one more.
fn expect_committed(
    rt: &impl Abort,
    alloc: Global,
    desk: &MemDesk,
    call: u32,
    committed: u32,
) -> Result<(), Fail> {
    assert!(rt; call < desk.calls());
    for filler in FILLERS {
        let mut stopped = desk.stopped(alloc, call, filler)?;
        let held = commands_in(alloc, &mut stopped)?;
        let is_whole = held == committed || held == committed.saturating_add(1);
        assert!(rt; is_whole, "call {call}, filler {filler}: {held}");
    }
    Ok(())
}

// The session performs a command with this reply, and a stop within each call of its commit leaves
// the commands before it or that one too.
fn expect_whole(
    rt: &impl Abort,
    alloc: Global,
    session: Session,
    command: &Command,
    reply: &Reply,
    desk: &mut MemDesk,
    committed: u32,
) -> Result<Session, Fail>
    requires { HasDates command.now }
{
    let before = desk.calls();
    let session = expect_performed(rt, session, command, reply, desk)?;
    assert!(rt; before < desk.calls());
    for call in before..desk.calls() {
        expect_committed(rt, alloc, desk, call, committed)?;
    }
    Ok(session)
}

fn first_whole(
    rt: &impl Abort,
    alloc: Global,
    session: Session,
    desk: &mut MemDesk,
) -> Result<Session, Fail> {
    let command = first(alloc)?;
    let performed = expect_whole(rt, alloc, session, &command, &FIRST_REPLY, desk, 0);
    drop(command);
    performed
}

fn second_whole(
    rt: &impl Abort,
    alloc: Global,
    session: Session,
    desk: &mut MemDesk,
) -> Result<Session, Fail> {
    let command = second(alloc)?;
    let performed = expect_whole(rt, alloc, session, &command, &SECOND_REPLY, desk, 1);
    drop(command);
    performed
}

#[test]
fn a_stop_leaves_a_command_or_not(rt: HostRuntime) -> Result<(), Fail> {
    let alloc = rt.alloc();
    let mut desk = MemDesk::holding(alloc, &[], &[])?;
    let session = create(alloc, &mut desk)?;
    let session = first_whole(&rt, alloc, session, &mut desk)?;
    let _ = second_whole(&rt, alloc, session, &mut desk)?;
    assert_eq!(rt; commands_in(alloc, &mut desk)?, 2);
    Ok(())
}
