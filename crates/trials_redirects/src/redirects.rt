// Visits with sources: what the file keeps of every page after each of them.
ghost use Rattle.std.specs.Prelude.{◌≡◌, ◌<◌, IfOk};
ghost use Rattle.pl_step.specs.Commands.{HasDates};

use pl_base::{Micros, PageId, Refusal, Rows, Steps, Transition, VisitId};
use pl_desk::MemDesk;
use pl_link::Canon;
use pl_linked::Linked;
use pl_step::{Command, Reply};
use pl_store::{Memory, SLOT_LIMIT, Session, create};
use std::alloc::Global;
use std::marker::Brand;
use std::process::Abort;
use std::sync::ledger::{Blank, Ledger};
use std::test::Fail;
use trials_sessions::{FIRST_REPLY, first, perform, visit};

// What is kept of a page: its frecency, its `visit_count`, and whether it is hidden.
type Kept = (i64, u32, bool);

// A visit to a page by a transition from a source, which is 0 for none, and then each page.
type Step = (&'static str, Transition, u32, &'static [Kept]);

const A: &str = "https://a.example/";

const B: &str = "https://b.example/";

const C: &str = "https://c.example/";

const D: &str = "https://d.example/";

const THREE_REDIRECTS: &[Step] = &[
    (A, Transition::Typed, 0, &[(2000, 1, false)]),
    (
        B,
        Transition::RedirectPermanent,
        1,
        &[(25, 1, true), (2000, 1, false)],
    ),
    (
        C,
        Transition::RedirectTemporary,
        2,
        &[(25, 1, true), (25, 1, true), (50, 1, false)],
    ),
    (
        D,
        Transition::RedirectPermanent,
        3,
        &[(25, 1, true), (25, 1, true), (25, 1, true), (40, 1, false)],
    ),
];

const NO_SOURCE: &[Step] = &[
    (A, Transition::RedirectPermanent, 0, &[(50, 1, false)]),
    (
        B,
        Transition::RedirectTemporary,
        0,
        &[(50, 1, false), (40, 1, false)],
    ),
];

// The page is hidden, shown by a link, hidden by the redirect that came from it, and shown again.
const HIDDEN_AND_SHOWN: &[Step] = &[
    (A, Transition::Embed, 0, &[(0, 0, true)]),
    (A, Transition::Link, 0, &[(50, 1, false)]),
    (
        B,
        Transition::RedirectPermanent,
        2,
        &[(13, 1, true), (100, 1, false)],
    ),
    (A, Transition::Link, 0, &[(84, 2, false), (100, 1, false)]),
];

const OWN_SOURCE: &[Step] = &[
    (A, Transition::Link, 0, &[(100, 1, false)]),
    (A, Transition::RedirectPermanent, 1, &[(125, 2, false)]),
    (A, Transition::RedirectTemporary, 2, &[(100, 3, false)]),
];

const TWO_FROM_ONE: &[Step] = &[
    (A, Transition::Typed, 0, &[(2000, 1, false)]),
    (
        B,
        Transition::RedirectPermanent,
        1,
        &[(25, 1, true), (2000, 1, false)],
    ),
    (
        C,
        Transition::RedirectTemporary,
        1,
        &[(25, 1, true), (2000, 1, false), (2000, 1, false)],
    ),
];

// A source may be of any transition, and only a redirect makes it count as one.
const ANY_SOURCE: &[Step] = &[
    (A, Transition::Reload, 0, &[(0, 0, false)]),
    (B, Transition::Link, 1, &[(0, 0, false), (100, 1, false)]),
    (
        C,
        Transition::RedirectPermanent,
        1,
        &[(0, 0, true), (100, 1, false), (-1, 1, false)],
    ),
];

const TABLES: &[&[Step]] = &[
    THREE_REDIRECTS,
    NO_SOURCE,
    HIDDEN_AND_SHOWN,
    OWN_SOURCE,
    TWO_FROM_ONE,
    ANY_SOURCE,
];

// A visit whose source has this id, or none where that is 0.
fn visit_from(
    alloc: Global,
    url: &str,
    transition: Transition,
    date: u8,
    source: u32,
) -> Result<Command, Fail>
    ensures { IfOk result HasDates }
{
    let source = (source > 0).then_some(VisitId(source));
    let url = Canon::read(alloc, url)?;
    Ok(visit(url, transition, Micros(u64::from(date)), source))
}

// No table has more than nine pages.
fn check_marks<L: Ledger>(rt: &impl Abort, rows: &Linked, marks: &[Kept], steps: &mut Steps<L>) {
    for (id, want) in (1..10).zip(marks) {
        let mark = rows.page_at(PageId(id), steps);
        let kept = mark.map(|mark| (mark.frecency, mark.count, mark.hidden));
        assert!(rt; kept == Some(*want), "page {id}: {kept:?}");
    }
}

// The pages of the file, from the first one on, have these marks.
fn check_file<L: Ledger>(
    rt: &impl Abort,
    alloc: Global,
    bytes: &[u8],
    marks: &[Kept],
    blank: Blank,
) -> Result<(), Fail>
    requires name { blank.name ≡ L.name }
    requires parts { blank.parts ≡ L.parts }
    requires some { 0 < blank.parts }
{
    let steps = &mut Steps::<L>::none(blank);
    let rows = Linked::check(alloc, bytes.to_vec(alloc)?, steps)?;
    check_marks(rt, &rows, marks, steps);
    Ok(())
}

fn perform_and_check(
    rt: &impl Abort,
    alloc: Global,
    session: Session,
    command: &Command,
    desk: &mut MemDesk,
    marks: &[Kept],
) -> Result<Session, Fail>
    requires { HasDates command.now }
{
    let (session, reply) = perform(session, command, desk)?;
    drop(reply);
    check_file::<Brand>(rt, alloc, desk.bytes(), marks, Blank::new(1))?;
    Ok(session)
}

fn check_table(rt: &impl Abort, alloc: Global, table: &[Step]) -> Result<(), Fail> {
    let mut desk = MemDesk::holding(alloc, &[], &[])?;
    let mut session = create(alloc, &mut desk)?;
    for (url, transition, source, marks) in table {
        let command = visit_from(alloc, *url, *transition, 0, *source)?;
        let performed = perform_and_check(rt, alloc, session, &command, &mut desk, *marks);
        drop(command);
        session = performed?;
    }
    Ok(())
}

#[test]
fn keeps_every_page_right(rt: HostRuntime) -> Result<(), Fail> {
    for table in TABLES {
        check_table(&rt, rt.alloc(), *table)?;
    }
    Ok(())
}

// What comes from one visit, and the orders in which the three arrive and in which their dates go.
const TARGETS: [(&str, Transition); 3] = [
    (B, Transition::Link),
    (C, Transition::RedirectPermanent),
    (D, Transition::RedirectTemporary),
];

const ORDERS: [[u8; 3]; 6] = [
    [0, 1, 2],
    [0, 2, 1],
    [1, 0, 2],
    [1, 2, 0],
    [2, 0, 1],
    [2, 1, 0],
];

// The page of the source before a redirect has come from it, and since.
const SOURCE: [Kept; 2] = [(100, 1, false), (25, 1, true)];

// A new store with the visit that the three come from.
fn with_source(rt: &impl Abort, alloc: Global, desk: &mut MemDesk) -> Result<Session, Fail> {
    let session = create(alloc, desk)?;
    let source = visit_from(alloc, A, Transition::Link, 1, 0)?;
    let performed = perform_and_check(rt, alloc, session, &source, desk, &SOURCE[..1]);
    drop(source);
    performed
}

// The visit to a target at its date.
fn target_visit(rt: &impl Abort, alloc: Global, target: u8, dates: [u8; 3]) -> Result<Command, Fail>
    ensures { IfOk result HasDates }
{
    let target = usize::from(target);
    assert!(rt; target < 3);
    let (url, transition) = TARGETS[target];
    visit_from(alloc, url, transition, dates[target], 1)
}

fn perform_target(
    rt: &impl Abort,
    alloc: Global,
    session: Session,
    command: &Command,
    desk: &mut MemDesk,
    has_led: bool,
) -> Result<Session, Fail>
    requires { HasDates command.now }
{
    let marks = if has_led { &SOURCE[1..] } else { &SOURCE[..1] };
    perform_and_check(rt, alloc, session, command, desk, marks)
}

fn check_orders(
    rt: &impl Abort,
    alloc: Global,
    arrival: [u8; 3],
    dates: [u8; 3],
) -> Result<(), Fail> {
    let mut desk = MemDesk::holding(alloc, &[], &[])?;
    let mut session = with_source(rt, alloc, &mut desk)?;
    let mut has_led = false;
    for target in arrival {
        // The first of them is no redirect.
        has_led = has_led || target != 0;
        let command = target_visit(rt, alloc, target, dates)?;
        let performed = perform_target(rt, alloc, session, &command, &mut desk, has_led);
        drop(command);
        session = performed?;
    }
    Ok(())
}

#[test]
fn takes_targets_in_any_order(rt: HostRuntime) -> Result<(), Fail> {
    for arrival in ORDERS {
        for dates in ORDERS {
            check_orders(&rt, rt.alloc(), arrival, dates)?;
        }
    }
    Ok(())
}

fn refuse_lost_source(rt: &impl Abort, alloc: Global, memory: Memory) -> Result<Memory, Fail> {
    let lost = visit_from(alloc, B, Transition::Link, 0, 9)?;
    let stepped = memory.step(&lost);
    drop(lost);
    let (memory, reply) = stepped?;
    let is_refused = reply == Reply::Refused(Refusal::NoVisit(VisitId(9)));
    drop(reply);
    assert!(rt; is_refused);
    Ok(memory)
}

// A visit without its source is refused, and makes no page.
#[test]
fn refuses_a_source_that_is_no_visit(rt: HostRuntime) -> Result<(), Fail> {
    let alloc = rt.alloc();
    let memory = refuse_lost_source(&rt, alloc, Memory::opening(alloc, SLOT_LIMIT)?)?;
    let command = first(alloc)?;
    let stepped = memory.step(&command);
    drop(command);
    let (_, reply) = stepped?;
    let is_first = reply == FIRST_REPLY;
    drop(reply);
    assert!(rt; is_first);
    Ok(())
}
