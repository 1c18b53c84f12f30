// A drill on the store of the file.
ghost use Rattle.std.specs.Prelude.{◌≡◌, ◌≢◌, ◌≤◌, ◌+◌, ℕ, List, [], ◌∷◌, ◌++◌, Some, Err, true};
ghost use Rattle.std.specs.Prelude.{IfOk, IfErr, codes, decimal};
ghost use Rattle.std.specs.List.{count_by};
ghost use Rattle.pl_base.specs.Live.{slot_limit};
ghost use Rattle.pl_base.specs.Store.{Store};
ghost use Rattle.pl_desk.specs.Calls.{KeepsLine};
ghost use Rattle.pl_desk.specs.Counts.{CountsAt};
ghost use Rattle.pl_desk.specs.Settling.{ShowsThen};
ghost use Rattle.pl_desk.specs.Shown.{AtAnyMoment, ShowsOnly};
ghost use Rattle.pl_drill.specs.Drill.{most_lines, tabbed};
ghost use Rattle.pl_step.specs.Refused.{is_refused};
ghost use Rattle.pl_script.specs.Reply.{reply_text as text_of_reply};
ghost use Rattle.pl_step.specs.Commands.{HasDates};
ghost use Rattle.pl_step.specs.Step.{perform};
ghost use Rattle.pl_store.specs.Ending.{KeepsFinished, RefusesFile, StandsForNone};
ghost use Rattle.pl_store.specs.Keeper.{IsKept, is_file, keeper_limit, keeper_store};
ghost use Rattle.pl_store.specs.Session.{Stands, StandsForEither};
ghost use Rattle.places.specs.Drilling.{EndsDrill, IsSmall, LeavesLines, ShowsDrill, StandsForSome};
ghost use Rattle.places.specs.Drilling.{all_drilled, drill_status, line_done, performed, so_far};
ghost use Rattle.places.specs.Drilling.{summary_of, told};
ghost use Rattle.places.specs.Ending.{EndsTask, EndsUnopened};
ghost use Rattle.places.specs.Progress.{StaysKept};
ghost use Rattle.places.specs.Stops.{LeavesOfAnswer, ShowsUnopened};
ghost use Rattle.places.specs.Serving.{CountsFaults};

use crate::answer_error::AnswerError;
use crate::say::say_all;
use crate::status::Status;
use pl_base::{NoMemory, Txt};
use pl_desk::Desk;
use pl_drill::Drill;
use pl_script::{LineError, line, reply_text};
use pl_step::{Command, Reply};
use pl_store::{Keeper, SLOT_LIMIT, reopen};
use pl_task::Task;
use std::alloc::Global;

// A drill behind some of its lines.
#[derive(Drop)]
struct Drilling {
    alloc: Global,
    keeper: Keeper,
    drill: Drill,
    // How many lines were refused.
    refused: u32,
}

impl Drilling {
    // Runs the line of this number, the one behind the last.
    fn run_line<D: Desk>(mut self, number: u32, desk: &mut D) -> Result<Drilling, AnswerError>
        requires few { number ≤ most_lines }
        requires small { IsSmall number (so_far self) }
        requires limit { keeper_limit self.keeper ≡ slot_limit }
        requires file { is_file self.keeper ≡ true }
        ensures done { IfOk result (λ next. so_far next ≡ line_done number (so_far self)) }
        ensures limit { IfOk result (λ next. keeper_limit next.keeper ≡ slot_limit) }
        ensures file { IfOk result (λ next. is_file next.keeper ≡ true) }
        ensures kept { IfOk result
            (λ next. StaysKept D.Desk self.keeper desk.old next.keeper desk.new) }
        ensures left { IfErr result (λ error. (first : D) → IsKept D.Desk self.keeper first desk.old
            → LeavesOfAnswer D.Desk error true first (so_far self).store
            (line_done number (so_far self)).store desk.new) }
        ensures any_moment { (first : D) (before : List ℕ) → D.said desk.old ≡ Some before
            → IsKept D.Desk self.keeper first desk.old → AtAnyMoment D.Desk desk.old desk.new
            (StandsForEither (so_far self).store (line_done number (so_far self)).store) }
        ensures line { KeepsLine D.Desk desk.old desk.new }
        ensures unsaid { result ≢ Err AnswerError.SayFault }
        ensures counted { CountsAt (result ≡ Err AnswerError.DeviceFault)
            (D.device_faults desk.old) (D.device_faults desk.new) }
    {
        let text = self.drill.line(self.alloc, number)?;
        let command = match line(self.alloc, text.as_bytes()) {
            Ok(Some(command)) => command,
            Ok(None) => return Ok(self),
            Err(LineError::Refused(_)) => {
                self.refused += 1;
                return Ok(self);
            }
            Err(LineError::NoMemory) => return Err(AnswerError::NoMemory),
        };
        let performed = self.perform(&command, desk);
        drop(command);
        performed
    }

    // Performs a command: the store makes its step, and the file takes it.
    fn perform<D: Desk>(self, command: &Command, desk: &mut D) -> Result<Drilling, AnswerError>
        requires dates { HasDates command.now }
        requires few { self.refused ≤ most_lines }
        requires limit { keeper_limit self.keeper ≡ slot_limit }
        requires file { is_file self.keeper ≡ true }
        ensures done { IfOk result (λ next. so_far next ≡ performed command.now (so_far self)) }
        ensures limit { IfOk result (λ next. keeper_limit next.keeper ≡ slot_limit) }
        ensures file { IfOk result (λ next. is_file next.keeper ≡ true) }
        ensures kept { IfOk result
            (λ next. StaysKept D.Desk self.keeper desk.old next.keeper desk.new) }
        ensures left { IfErr result (λ error. (first : D) → IsKept D.Desk self.keeper first desk.old
            → LeavesOfAnswer D.Desk error true first (so_far self).store
            (performed command.now (so_far self)).store desk.new) }
        ensures any_moment { (first : D) (before : List ℕ) → D.said desk.old ≡ Some before
            → IsKept D.Desk self.keeper first desk.old → AtAnyMoment D.Desk desk.old desk.new
            (StandsForEither (so_far self).store (performed command.now (so_far self)).store) }
        ensures line { KeepsLine D.Desk desk.old desk.new }
        ensures unsaid { result ≢ Err AnswerError.SayFault }
        ensures counted { CountsAt (result ≡ Err AnswerError.DeviceFault)
            (D.device_faults desk.old) (D.device_faults desk.new) }
    {
        let Drilling {
            alloc,
            keeper,
            drill,
            refused,
        } = self;
        let (ready, reply) = keeper.prepare(command)?;
        let mut drilling = Drilling {
            alloc,
            keeper: ready.commit(desk)?,
            drill,
            refused,
        };
        drilling.take(&reply);
        Ok(drilling)
    }

    // Takes note of the reply to the last line.
    fn take(&mut self, reply: &Reply)
        requires few { self.old.refused ≤ most_lines }
        ensures drill { self.new.drill ≡ told reply.now self.old.drill }
        ensures refused { self.new.refused
            ≡ self.old.refused + count_by is_refused (reply.now ∷ []) }
        ensures keeper { self.new.keeper ≡ self.old.keeper }
    {
        match reply {
            Reply::Visit { visit, .. } => self.drill.take(*visit),
            Reply::Refused(_) => self.refused += 1,
            _ => {}
        }
    }

    // What is said of a drill of so many lines.
    fn summary(self, count: u32) -> Result<Txt, NoMemory>
        requires limit { keeper_limit self.keeper ≡ slot_limit }
        ensures { IfOk result (λ text. text ≡ summary_of count (so_far self)) }
    {
        let Drilling {
            alloc,
            keeper,
            refused,
            ..
        } = self;
        let stats = stats_text(alloc, keeper)?;
        summary_text(alloc, count, refused, stats.as_str())
    }
}

// The line of a drill, and what is said of the store.
fn summary_text(alloc: Global, count: u32, refused: u32, stats: &str) -> Result<Txt, NoMemory>
    ensures { IfOk result (λ text. text ≡ tabbed
        (codes "drill" ∷ decimal count ∷ codes "refused" ∷ decimal refused ∷ []) ++ codes "\n"
        ++ stats.now) }
{
    Ok(Txt::from(format!(in alloc; "drill\t{count}\trefused\t{refused}\n{stats}")?))
}

// What is said of the store.
fn stats_text(alloc: Global, keeper: Keeper) -> Result<Txt, NoMemory>
    ensures { IfOk result (λ text. text
        ≡ text_of_reply (perform (keeper_limit keeper) (keeper_store keeper) Command.Stats).0) }
{
    let (_, reply) = keeper.prepare(&Command::Stats)?;
    reply_text(alloc, &reply)
}

/// Runs a line that says the day, and so many drawn ones, on the store that the desk's file stands
/// for. The file takes each of them, and then a summary is said.
pub fn drill_stored<D: Desk>(alloc: Global, count: u32, seed: u64, desk: &mut D) -> Status
    requires { count ≤ most_lines }
    ensures status { EndsTask (Task.Drill count seed) result }
    ensures ends { (file : List ℕ) (start : Store) (before : List ℕ) → D.held desk.old ≡ Some file
        → Stands file start → D.said desk.old ≡ Some before
        → EndsDrill D.Desk result count seed desk.old start before desk.new }
    ensures stops { (file : List ℕ) (start : Store) (before : List ℕ) → D.held desk.old ≡ Some file
        → Stands file start → D.said desk.old ≡ Some before
        → ShowsThen D.Desk (result ≡ Status.DeviceFault) desk.old desk.new
        (ShowsUnopened D.Desk desk.old before)
        (ShowsDrill D.Desk count seed start before) }
    ensures refused { result ≡ Status.NotAStore
        → RefusesFile D.Desk desk.old desk.new × KeepsFinished D.Desk desk.old desk.new }
    ensures not_said { result ≡ Status.NotAStore → D.said desk.new ≡ D.said desk.old }
    ensures no_store { (file : List ℕ) → D.held desk.old ≡ Some file → StandsForNone file
        → EndsUnopened result × (D.said desk.new ≡ D.said desk.old) }
    ensures counted { CountsFaults D.Desk (result ≡ Status.SayFault)
        (result ≡ Status.DeviceFault) desk.old desk.new }
{
    match reopen(alloc, desk, SLOT_LIMIT) {
        Ok(session) => status_of(drill(alloc, Keeper::File(session), count, seed, desk)),
        Err(ended) => Status::from(ended),
    }
}

fn status_of(ended: Result<(), AnswerError>) -> Status
    ensures { result ≡ drill_status ended }
{
    match ended {
        Ok(()) => Status::Done,
        Err(error) => Status::from(error),
    }
}

// Runs all lines on an open store, and says the summary.
fn drill<D: Desk>(
    alloc: Global,
    keeper: Keeper,
    count: u32,
    seed: u64,
    desk: &mut D,
) -> Result<(), AnswerError>
    requires few { count ≤ most_lines }
    requires limit { keeper_limit keeper ≡ slot_limit }
    requires file { is_file keeper ≡ true }
    ensures ends { (first : D) (before : List ℕ) → D.said desk.old ≡ Some before
        → IsKept D.Desk keeper first desk.old → EndsDrill D.Desk (drill_status result) count seed
        first (keeper_store keeper) before desk.new }
    ensures shows { (first : D) (before : List ℕ) → D.said desk.old ≡ Some before
        → IsKept D.Desk keeper first desk.old → ShowsOnly D.Desk desk.old desk.new
        (ShowsDrill D.Desk count seed (keeper_store keeper) before) }
    ensures counted { CountsFaults D.Desk (result ≡ Err AnswerError.SayFault)
        (result ≡ Err AnswerError.DeviceFault) desk.old desk.new }
{
    let drilling = run_lines(alloc, keeper, count, seed, desk)?;
    let text = drilling.summary(count)?;
    match say_all(desk, text.as_str().as_bytes()) {
        Ok(()) => Ok(()),
        Err(_) => Err(AnswerError::SayFault),
    }
}

// Runs all lines on an open store.
fn run_lines<D: Desk>(
    alloc: Global,
    keeper: Keeper,
    count: u32,
    seed: u64,
    desk: &mut D,
) -> Result<Drilling, AnswerError>
    requires few { count ≤ most_lines }
    requires limit { keeper_limit keeper ≡ slot_limit }
    requires file { is_file keeper ≡ true }
    ensures done { IfOk result
        (λ drilling. so_far drilling ≡ all_drilled (keeper_store keeper) seed count) }
    ensures limit { IfOk result (λ drilling. keeper_limit drilling.keeper ≡ slot_limit) }
    ensures file { IfOk result (λ drilling. is_file drilling.keeper ≡ true) }
    ensures kept { IfOk result
        (λ drilling. StaysKept D.Desk keeper desk.old drilling.keeper desk.new) }
    ensures left { IfErr result (λ error. (first : D) → IsKept D.Desk keeper first desk.old
        → LeavesLines D.Desk error count seed first (keeper_store keeper) desk.new) }
    ensures any_moment { (first : D) (before : List ℕ) → D.said desk.old ≡ Some before
        → IsKept D.Desk keeper first desk.old → AtAnyMoment D.Desk desk.old desk.new
        (StandsForSome count seed (keeper_store keeper)) }
    ensures line { KeepsLine D.Desk desk.old desk.new }
    ensures unsaid { result ≢ Err AnswerError.SayFault }
    ensures counted { CountsAt (result ≡ Err AnswerError.DeviceFault)
        (D.device_faults desk.old) (D.device_faults desk.new) }
{
    let mut drilling = Drilling {
        alloc,
        keeper,
        drill: Drill::of(seed),
        refused: 0,
    };
    for number in 0..count + 1 {
        drilling = drilling.run_line(number, desk)?;
    }
    Ok(drilling)
}
