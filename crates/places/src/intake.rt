// What the input holds, brought into the store of the file: an import or a restore.
ghost use Rattle.std.specs.Prelude.{◌≡◌, ◌<◌, ℕ, List, Some, [], Err, length, true, IfOk, IfErr};
ghost use Rattle.pl_base.specs.Live.{slot_limit};
ghost use Rattle.pl_base.specs.Store.{Store};
ghost use Rattle.pl_desk.specs.Counts.{CountsAt};
ghost use Rattle.pl_desk.specs.Settling.{ShowsThen};
ghost use Rattle.pl_desk.specs.Shown.{ShowsOnly};
ghost use Rattle.pl_nbread.specs.BookmarkFile.{file_limit};
ghost use Rattle.pl_step.specs.Commands.{HasDates};
ghost use Rattle.pl_store.specs.Ending.{KeepsFinished, RefusesFile, StandsForNone};
ghost use Rattle.pl_store.specs.Keeper.{IsKept, is_file, keeper_limit, keeper_store};
ghost use Rattle.pl_store.specs.Session.{Stands};
ghost use Rattle.places.specs.Ending.{EndsTask, EndsUnopened, IfTold};
ghost use Rattle.places.specs.Status.{done_or};
ghost use Rattle.places.specs.Stops.{ShowsUnopened};
ghost use Rattle.places.specs.Serving.{CountsFaults};
ghost use Rattle.places.specs.TakingIn.{BringsIn, EndsIntake, IsIntake, LeavesRead, ShowsIntake};
ghost use Rattle.places.specs.TakingIn.{StopsCommit, StopsIntake, StopsReading, intake_task};

use crate::answer::conclude;
use crate::input::{PIECE, next_piece};
use crate::status::Status;
use pl_desk::{Desk, Source};
use pl_intake::Intake;
use pl_nbread::FILE_LIMIT;
use pl_step::{Command, Reply};
use pl_store::{Keeper, SLOT_LIMIT, reopen};
use std::alloc::Global;

/// Brings what the input holds into the store that the desk's file stands for.
pub fn intake_stored<S: Source, D: Desk>(
    alloc: Global,
    intake: Intake,
    input: &mut S,
    desk: &mut D,
) -> Status
    ensures status { EndsTask (intake_task intake) result }
    ensures ends { (file : List ℕ) (start : Store) → D.held desk.old ≡ Some file → Stands file start
        → IfTold (S.left input.old) (D.said desk.old) (λ bytes before.
        EndsIntake D.Desk intake result desk.old start bytes before (S.left input.new) desk.new) }
    ensures stops { (file : List ℕ) (start : Store) → D.held desk.old ≡ Some file
        → Stands file start
        → IfTold (S.left input.old) (D.said desk.old) (λ bytes before.
        ShowsThen D.Desk (result ≡ Status.DeviceFault) desk.old desk.new
        (ShowsUnopened D.Desk desk.old before)
        (ShowsIntake D.Desk intake start bytes before)) }
    ensures refused { result ≡ Status.NotAStore
        → RefusesFile D.Desk desk.old desk.new × KeepsFinished D.Desk desk.old desk.new }
    ensures not_run { result ≡ Status.NotAStore
        → (input.new ≡ input.old) × (D.said desk.new ≡ D.said desk.old) }
    ensures no_store { (file : List ℕ) → D.held desk.old ≡ Some file → StandsForNone file
        → EndsUnopened result × (input.new ≡ input.old) × (D.said desk.new ≡ D.said desk.old) }
    ensures reads_counted { CountsAt (result ≡ Status.ReadFault) (S.faults input.old)
        (S.faults input.new) }
    ensures counted { CountsFaults D.Desk (result ≡ Status.SayFault)
        (result ≡ Status.DeviceFault) desk.old desk.new }
{
    match reopen(alloc, desk, SLOT_LIMIT) {
        Ok(session) => status_of(take_in(alloc, intake, Keeper::File(session), input, desk)),
        Err(ended) => Status::from(ended),
    }
}

fn status_of(ended: Result<(), Status>) -> Status
    ensures { result ≡ done_or ended }
{
    match ended {
        Ok(()) => Status::Done,
        Err(status) => status,
    }
}

// Reads the input to its end, and brings in what it holds.
fn take_in<S: Source, D: Desk>(
    alloc: Global,
    intake: Intake,
    keeper: Keeper,
    input: &mut S,
    desk: &mut D,
) -> Result<(), Status>
    requires limit { keeper_limit keeper ≡ slot_limit }
    requires file { is_file keeper ≡ true }
    ensures ends { IfTold (S.left input.old) (D.said desk.old) (λ bytes before. (first : D)
        → IsKept D.Desk keeper first desk.old → EndsIntake D.Desk intake (done_or result) first
        (keeper_store keeper) bytes before (S.left input.new) desk.new) }
    ensures shows { IfTold (S.left input.old) (D.said desk.old) (λ bytes before. (first : D)
        → IsKept D.Desk keeper first desk.old → ShowsOnly D.Desk desk.old desk.new
        (ShowsIntake D.Desk intake (keeper_store keeper) bytes before)) }
    ensures stops { IfErr result (StopsIntake intake) }
    ensures reads_counted { CountsAt (result ≡ Err Status.ReadFault) (S.faults input.old)
        (S.faults input.new) }
    ensures counted { CountsFaults D.Desk (result ≡ Err Status.SayFault)
        (result ≡ Err Status.DeviceFault) desk.old desk.new }
{
    let bytes = read_all(alloc, input)?;
    let command = intake.read(alloc, &bytes)?;
    let committed = commit(alloc, keeper, &command, desk);
    drop(command);
    committed
}

// The whole input, which has to stay below the limit of a bookmark file, and of a backup too.
fn read_all<S: Source>(alloc: Global, input: &mut S) -> Result<Vec<u8>, Status>
    ensures whole { IfOk result (λ read. (bytes : List ℕ) → S.left input.old ≡ Some bytes
        → (read.items ≡ bytes) × (S.left input.new ≡ Some [])) }
    ensures short { IfOk result (λ read. length read.items < file_limit) }
    ensures left { IfErr result (λ status. (bytes : List ℕ) → S.left input.old ≡ Some bytes
        → LeavesRead status bytes (S.left input.new)) }
    ensures stops { IfErr result StopsReading }
    ensures counted { CountsAt (result ≡ Err Status.ReadFault) (S.faults input.old)
        (S.faults input.new) }
{
    let mut bytes = Vec::new(alloc);
    loop {
        let piece = next_piece(alloc, input, PIECE.min(FILE_LIMIT - bytes.len()))?;
        if piece.is_empty() {
            return Ok(bytes);
        }
        if piece.len() == FILE_LIMIT - bytes.len() {
            return Err(Status::TooLong(FILE_LIMIT as u64));
        }
        bytes.extend_from_slice(&piece)?;
    }
}

// Performs the command, unless it is refused, and says its reply behind the file's taking it.
fn commit<D: Desk>(
    alloc: Global,
    keeper: Keeper,
    command: &Command,
    desk: &mut D,
) -> Result<(), Status>
    requires intake { IsIntake command.now }
    requires dates { HasDates command.now }
    requires limit { keeper_limit keeper ≡ slot_limit }
    requires file { is_file keeper ≡ true }
    ensures ends { (intake : Intake) (bytes before : List ℕ) (first : D)
        → BringsIn intake command.now bytes → D.said desk.old ≡ Some before
        → IsKept D.Desk keeper first desk.old
        → EndsIntake D.Desk intake (done_or result) first (keeper_store keeper) bytes before
        (Some []) desk.new }
    ensures shows { (intake : Intake) (bytes before : List ℕ) (first : D)
        → BringsIn intake command.now bytes → D.said desk.old ≡ Some before
        → IsKept D.Desk keeper first desk.old → ShowsOnly D.Desk desk.old desk.new
        (ShowsIntake D.Desk intake (keeper_store keeper) bytes before) }
    ensures stops { IfErr result StopsCommit }
    ensures counted { CountsFaults D.Desk (result ≡ Err Status.SayFault)
        (result ≡ Err Status.DeviceFault) desk.old desk.new }
{
    let (ready, reply) = keeper.prepare(command)?;
    if let Reply::Refused(refusal) = reply {
        drop(reply);
        return Err(Status::ImportRefused(refusal));
    }
    let concluded = conclude(alloc, ready, &reply, desk);
    drop(reply);
    concluded?;
    Ok(())
}
