// Whose totals commands set, where each of 1,000 hosts has a page.
ghost use Rattle.std.specs.Prelude.{◌≡◌, ◌<◌, IfOk};
ghost use Rattle.pl_step.specs.Commands.{HasDates};

use crate::{Log, Watched};
use pl_base::{Micros, SLOT_LIMIT, Steps, Transition, VisitId};
use pl_engine::Engine;
use pl_link::Canon;
use pl_nbread::{FILE_LIMIT, read};
use pl_plain::Flat;
use pl_step::Command;
use std::alloc::Global;
use std::marker::Brand;
use std::process::Abort;
use std::sync::ledger::{Blank, Ledger};
use std::test::Fail;

type Hosts<'a> = Engine<Watched<'a, Flat>>;

// A visit to the page of a host: by a redirect where it has a source.
fn visit(alloc: Global, host: u32, source: Option<VisitId>) -> Result<Command, Fail>
    ensures { IfOk result HasDates }
{
    let text = format!(in alloc; "https://h{host}.example/")?;
    let url = Canon::read(alloc, text.as_str())?;
    let transition = match source {
        Some(_) => Transition::RedirectPermanent,
        None => Transition::Link,
    };
    Ok(Command::Visit {
        url,
        transition,
        date: Micros(0),
        source,
    })
}

fn performed<'a, L: Ledger>(
    engine: Hosts<'a>,
    command: Command,
    steps: &mut Steps<L>,
) -> Result<Hosts<'a>, Fail>
    requires { HasDates command }
{
    let done = engine.apply(&command, steps);
    drop(command);
    let (engine, reply) = done?;
    drop(reply);
    Ok(engine)
}

fn visited<'a, L: Ledger>(
    alloc: Global,
    engine: Hosts<'a>,
    host: u32,
    source: Option<VisitId>,
    steps: &mut Steps<L>,
) -> Result<Hosts<'a>, Fail> {
    let command = visit(alloc, host, source)?;
    performed(engine, command, steps)
}

// A bookmark file with the page of each host.
fn file(alloc: Global) -> Result<String, Fail> {
    let mut text = String::from_str(alloc, "<!DOCTYPE NETSCAPE-Bookmark-file-1>\n")?;
    for host in 1..=1_000 {
        let line = format!(in alloc; "<DT><A HREF=\"https://h{host}.example/\">h</A>\n")?;
        text.push_str(line.as_str())?;
    }
    Ok(text)
}

fn import(alloc: Global) -> Result<Command, Fail>
    ensures { IfOk result HasDates }
{
    let text = file(alloc)?;
    if text.len() >= FILE_LIMIT {
        return Err("too long".into());
    }
    let tree = read(alloc, text.as_bytes()).map_err(|_| "no tree")?;
    Ok(Command::Import(tree))
}

// The host with the number n has the page n and the origin n.
fn with_hosts<'a, L: Ledger>(
    alloc: Global,
    log: &'a Log,
    steps: &mut Steps<L>,
) -> Result<Hosts<'a>, Fail> {
    let command = import(alloc)?;
    let rows = Flat::opening(alloc)?;
    let engine = Engine::over(alloc, Watched { rows, log }, SLOT_LIMIT, steps)?;
    performed(engine, command, steps)
}

fn expect<L: Ledger>(rt: &impl Abort, alloc: Global, blank: Blank) -> Result<(), Fail>
    requires name { blank.name ≡ L.name }
    requires parts { blank.parts ≡ L.parts }
    requires some { 0 < blank.parts }
{
    let log = Log::empty();
    let mut steps = Steps::<L>::none(blank);
    let engine = with_hosts(alloc, &log, &mut steps)?;
    log.taken();
    let engine = visited(alloc, engine, 500, None, &mut steps)?;
    assert!(rt; log.taken() == (1, 500, 500));
    let engine = visited(alloc, engine, 1_001, None, &mut steps)?;
    assert!(rt; log.taken() == (1, 1_001, 1_001));
    let engine = visited(alloc, engine, 7, Some(VisitId(1)), &mut steps)?;
    assert!(rt; log.taken() == (2, 7, 500));
    let engine = performed(engine, Command::Unvisit { visit: VisitId(2) }, &mut steps)?;
    assert!(rt; log.taken() == (2, 1_001, 1_001));
    drop(engine);
    Ok(())
}

// A visit sets the total of its page's origin, and a redirect that of its source's page too; a
// visit that goes with its page sets the one of its origin twice, the second time to what it was
// before the page. No other host's is set.
#[test]
fn a_command_sets_the_totals_that_it_bears_on(rt: HostRuntime) -> Result<(), Fail> {
    expect::<Brand>(&rt, rt.alloc(), Blank::new(1))
}
