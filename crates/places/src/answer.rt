// The answer to one line. A command and a reply are dropped by name, here and in an import and a
// drill, which is cheaper to prove than that they go at a function's end.
ghost use Rattle.std.specs.Prelude.{◌≡◌, ◌≤◌, ◌+◌, ℕ, List, [], ◌∷◌, Some, Ok, Err};
ghost use Rattle.std.specs.Prelude.{IfOk, IfErr, OnOk};
ghost use Rattle.pl_desk.specs.Shown.{ShowsOnly};
ghost use Rattle.pl_desk.specs.Counts.{CountsAt};
ghost use Rattle.pl_desk.specs.Calls.{LeavesFile};
ghost use Rattle.pl_step.specs.Run.{replies, after};
ghost use Rattle.pl_step.specs.Commands.{HasDates};
ghost use Rattle.pl_store.specs.Keeper.{IsReadyFrom, keeper_limit, keeper_store};
ghost use Rattle.pl_store.specs.Keeper.{ready_bytes, ready_limit, ready_store};
ghost use Rattle.pl_script.specs.Reply.{reply_text as text_of_reply};
ghost use Rattle.places.specs.Bounded.{WritesFew};
ghost use Rattle.places.specs.Lines.{entries_in};
ghost use Rattle.places.specs.Said.{Says, SaysOfAnswer, texts};
ghost use Rattle.places.specs.Serving.{Answers, CountsFaults, Serves, Taking};
ghost use Rattle.places.specs.Stops.{ShowsFront};

use crate::answer_error::AnswerError;
use crate::say::say_all;
use pl_base::Refusal;
use pl_desk::Desk;
use pl_script::{LineError, line, reply_text};
use pl_step::{Command, Reply};
use pl_store::{Keeper, Ready};
use std::alloc::Global;

/// Answers a line without its LF: the store makes its step, the file takes it, and the reply is
/// said. The reply's text is made before the file takes the step.
pub fn answer<D: Desk>(
    alloc: Global,
    keeper: Keeper,
    bytes: &[u8],
    desk: &mut D,
) -> Result<Keeper, AnswerError>
    ensures answers { Answers D.Desk
        (after (keeper_limit keeper) (keeper_store keeper) (entries_in bytes.now))
        (replies (keeper_limit keeper) (keeper_store keeper) (entries_in bytes.now))
        result desk.old desk.new }
    ensures limit { IfOk result (λ next. keeper_limit next ≡ keeper_limit keeper) }
    ensures bounded { WritesFew (keeper_limit keeper) (keeper_store keeper) (entries_in bytes.now)
        (D.written desk.old) (D.written desk.new) }
    ensures serves { Serves D.Desk keeper (λ next. next) result desk.old desk.new }
    ensures taking { Taking D.Desk keeper
        (after (keeper_limit keeper) (keeper_store keeper) (entries_in bytes.now))
        (texts (replies (keeper_limit keeper) (keeper_store keeper) (entries_in bytes.now)))
        result desk.old desk.new }
    ensures counted { CountsFaults D.Desk (result ≡ Err AnswerError.SayFault)
        (result ≡ Err AnswerError.DeviceFault) desk.old desk.new }
{
    let command = match line(alloc, bytes) {
        Ok(Some(command)) => command,
        Ok(None) => return Ok(keeper),
        Err(LineError::Refused(refusal)) => {
            refuse(alloc, refusal, desk)?;
            return Ok(keeper);
        }
        Err(LineError::NoMemory) => return Err(AnswerError::NoMemory),
    };
    let answered = perform(alloc, keeper, &command, desk);
    drop(command);
    answered
}

// Answers a command: the store makes its step, the file takes it, and the reply is said.
fn perform<D: Desk>(
    alloc: Global,
    keeper: Keeper,
    command: &Command,
    desk: &mut D,
) -> Result<Keeper, AnswerError>
    requires dates { HasDates command.now }
    ensures answers { Answers D.Desk
        (after (keeper_limit keeper) (keeper_store keeper) (Ok command.now ∷ []))
        (replies (keeper_limit keeper) (keeper_store keeper) (Ok command.now ∷ []))
        result desk.old desk.new }
    ensures limit { IfOk result (λ next. keeper_limit next ≡ keeper_limit keeper) }
    ensures bounded { WritesFew (keeper_limit keeper) (keeper_store keeper) (Ok command.now ∷ [])
        (D.written desk.old) (D.written desk.new) }
    ensures serves { Serves D.Desk keeper (λ next. next) result desk.old desk.new }
    ensures taking { Taking D.Desk keeper
        (after (keeper_limit keeper) (keeper_store keeper) (Ok command.now ∷ []))
        (texts (replies (keeper_limit keeper) (keeper_store keeper) (Ok command.now ∷ [])))
        result desk.old desk.new }
    ensures counted { CountsFaults D.Desk (result ≡ Err AnswerError.SayFault)
        (result ≡ Err AnswerError.DeviceFault) desk.old desk.new }
{
    let (ready, reply) = keeper.prepare(command)?;
    let concluded = conclude(alloc, ready, &reply, desk);
    drop(reply);
    concluded
}

/// Takes a command that was prepared: the file takes its step, and the reply is said. The reply's
/// text is made before.
pub(crate) fn conclude<D: Desk>(
    alloc: Global,
    ready: Ready,
    reply: &Reply,
    desk: &mut D,
) -> Result<Keeper, AnswerError>
    ensures answers { Answers D.Desk (ready_store ready) (reply.now ∷ [])
        result desk.old desk.new }
    ensures limit { IfOk result (λ next. keeper_limit next ≡ ready_limit ready) }
    ensures bounded { D.written desk.new ≤ D.written desk.old + ready_bytes ready }
    ensures serves { (before : Keeper) → IsReadyFrom before ready
        → Serves D.Desk before (λ next. next) result desk.old desk.new }
    ensures taking { (before : Keeper) → IsReadyFrom before ready
        → Taking D.Desk before (ready_store ready) (text_of_reply reply.now)
        result desk.old desk.new }
    ensures counted { CountsFaults D.Desk (result ≡ Err AnswerError.SayFault)
        (result ≡ Err AnswerError.DeviceFault) desk.old desk.new }
{
    let text = reply_text(alloc, reply)?;
    let next = ready.commit(desk)?;
    match say_all(desk, text.as_str().as_bytes()) {
        Ok(()) => Ok(next),
        Err(_) => Err(AnswerError::SayFault),
    }
}

// Answers a line that asks for nothing that can be done.
fn refuse<D: Desk>(alloc: Global, refusal: Refusal, desk: &mut D) -> Result<(), AnswerError>
    ensures said { OnOk result
        (Says (D.said desk.old) (text_of_reply (Reply.Refused refusal)) (D.said desk.new)) }
    ensures stopped { IfErr result (λ error.
        SaysOfAnswer error (Reply.Refused refusal ∷ []) (D.said desk.old) (D.said desk.new)) }
    ensures shows { (before : List ℕ) → D.said desk.old ≡ Some before
        → ShowsOnly D.Desk desk.old desk.new
        (ShowsFront D.Desk desk.old before (text_of_reply (Reply.Refused refusal))) }
    ensures no_fault { result ≡ Err AnswerError.DeviceFault → ⊥ }
    ensures no_memory { result ≡ Err AnswerError.NoMemory → desk.new ≡ desk.old }
    ensures file { LeavesFile D.Desk desk.old desk.new }
    ensures counted { CountsAt (result ≡ Err AnswerError.SayFault)
        (D.line_faults desk.old) (D.line_faults desk.new) }
{
    let text = reply_text(alloc, &Reply::Refused(refusal))?;
    match say_all(desk, text.as_str().as_bytes()) {
        Ok(()) => Ok(()),
        Err(_) => Err(AnswerError::SayFault),
    }
}
