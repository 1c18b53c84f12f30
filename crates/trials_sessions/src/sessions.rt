ghost use Rattle.std.specs.Prelude.{IfOk};
ghost use Rattle.pl_base.specs.Date.{IsDate};
ghost use Rattle.pl_step.specs.Commands.{HasDates};

use pl_base::{DeviceFault, Micros, PageId, Transition, VisitId};
use pl_desk::MemDesk;
use pl_link::Canon;
use pl_step::{Command, Reply};
use pl_store::Session;
use std::alloc::Global;
use std::test::Fail;

/// A visit to a URL.
pub fn visit(url: Canon, transition: Transition, date: Micros, source: Option<VisitId>) -> Command
    requires { IsDate date }
    ensures { HasDates result }
{
    Command::Visit {
        url,
        transition,
        date,
        source,
    }
}

/// A typed visit to `https://a.example/` at 0.
pub fn first(alloc: Global) -> Result<Command, Fail>
    ensures { IfOk result HasDates }
{
    let url = Canon::read(alloc, "https://a.example/")?;
    Ok(visit(url, Transition::Typed, Micros(0), None))
}

/// A link to `https://b.example/` at 1.
pub fn second(alloc: Global) -> Result<Command, Fail>
    ensures { IfOk result HasDates }
{
    let url = Canon::read(alloc, "https://b.example/")?;
    Ok(visit(url, Transition::Link, Micros(1), None))
}

/// The reply to the first.
pub const FIRST_REPLY: Reply = Reply::Visit {
    visit: VisitId(1),
    page: PageId(1),
    frecency: 2000,
};

/// The reply to the second behind the first.
pub const SECOND_REPLY: Reply = Reply::Visit {
    visit: VisitId(2),
    page: PageId(2),
    frecency: 100,
};

// The session with the reply, which is dropped by name where a call of the file failed.
fn handed_on(
    committed: Result<Session, DeviceFault>,
    reply: Reply,
) -> Result<(Session, Reply), Fail> {
    match committed {
        Ok(session) => Ok((session, reply)),
        Err(fault) => {
            drop(reply);
            Err(fault.into())
        }
    }
}

/// Performs a command and commits it.
pub fn perform(
    session: Session,
    command: &Command,
    desk: &mut MemDesk,
) -> Result<(Session, Reply), Fail>
    requires { HasDates command.now }
{
    let (prepared, reply) = session.prepare(command)?;
    handed_on(prepared.commit(desk), reply)
}
