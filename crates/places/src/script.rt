// A script on a store in memory, and on one in a file.
ghost use Rattle.std.specs.Prelude.{◌≡◌, ◌+◌, ℕ, List, Some, true, false};
ghost use Rattle.pl_base.specs.Store.{Store, opening};
ghost use Rattle.pl_base.specs.Live.{slot_limit};
ghost use Rattle.pl_desk.specs.Calls.{LeavesFile};
ghost use Rattle.pl_desk.specs.Counts.{CountsAt};
ghost use Rattle.pl_desk.specs.Settling.{ShowsThen};
ghost use Rattle.pl_desk.specs.Shown.{ShowsOnly};
ghost use Rattle.pl_store.specs.Bounds.{reopening_bytes};
ghost use Rattle.pl_store.specs.Ending.{KeepsFinished, RefusesFile, StandsForNone};
ghost use Rattle.pl_store.specs.Session.{Stands};
ghost use Rattle.pl_script.specs.Script.{script};
ghost use Rattle.places.specs.Ending.{EndsTask, EndsUnopened, IfTold, LeavesAtEnd};
ghost use Rattle.places.specs.Ending.{WritesRead};
ghost use Rattle.places.specs.Status.{EndsAs};
ghost use Rattle.places.specs.Stops.{ShowsAnswered, ShowsUnopened};
ghost use Rattle.places.specs.Serving.{CountsFaults};

use crate::run_script::run_script;
use crate::status::Status;
use crate::stop::Stop;
use pl_desk::{Desk, Source};
use pl_store::{Keeper, Memory, SLOT_LIMIT, reopen};
use pl_task::Task;
use std::alloc::Global;

/// Runs the script of the input on a store in memory, from the one before its first command on.
pub fn try_script<S: Source, D: Desk>(alloc: Global, input: &mut S, desk: &mut D) -> Status
    ensures status { EndsTask Task.Try result }
    ensures ends { IfTold (S.left input.old) (D.said desk.old) (λ bytes before.
        LeavesAtEnd D.Desk result false desk.old opening bytes before (S.left input.new) desk.new) }
    ensures stops { IfTold (S.left input.old) (D.said desk.old) (λ bytes before.
        ShowsOnly D.Desk desk.old desk.new
        (ShowsAnswered D.Desk false desk.old slot_limit opening (script bytes) before)) }
    ensures alone { LeavesFile D.Desk desk.old desk.new }
    ensures reads_counted { CountsAt (result ≡ Status.ReadFault) (S.faults input.old)
        (S.faults input.new) }
    ensures counted { CountsFaults D.Desk (result ≡ Status.SayFault)
        (result ≡ Status.DeviceFault) desk.old desk.new }
{
    match Memory::opening(alloc, SLOT_LIMIT) {
        Ok(memory) => status_of(run_script(alloc, Keeper::Memory(memory), input, desk)),
        Err(_) => Status::NoMemory,
    }
}

/// Runs the script of the input on the store that the desk's file stands for.
pub fn run_stored<S: Source, D: Desk>(alloc: Global, input: &mut S, desk: &mut D) -> Status
    ensures status { EndsTask Task.Run result }
    ensures ends { (file : List ℕ) (start : Store) → D.held desk.old ≡ Some file → Stands file start
        → IfTold (S.left input.old) (D.said desk.old) (λ bytes before.
        LeavesAtEnd D.Desk result true desk.old start bytes before (S.left input.new) desk.new) }
    ensures stops { (file : List ℕ) (start : Store) → D.held desk.old ≡ Some file
        → Stands file start
        → IfTold (S.left input.old) (D.said desk.old) (λ bytes before.
        ShowsThen D.Desk (result ≡ Status.DeviceFault) desk.old desk.new
        (ShowsUnopened D.Desk desk.old before)
        (ShowsAnswered D.Desk true desk.old slot_limit start (script bytes) before)) }
    // Beside what a recovery of the file writes, no more than the commits of what was read may.
    ensures bounded { (file : List ℕ) (start : Store) → D.held desk.old ≡ Some file
        → Stands file start
        → IfTold (S.left input.old) (D.said desk.old) (λ bytes before.
        WritesRead start bytes (S.left input.new)
        (D.written desk.old + reopening_bytes file) (D.written desk.new)) }
    ensures refused { result ≡ Status.NotAStore
        → RefusesFile D.Desk desk.old desk.new × KeepsFinished D.Desk desk.old desk.new }
    ensures not_run { result ≡ Status.NotAStore
        → (input.new ≡ input.old) × (D.said desk.new ≡ D.said desk.old) }
    ensures no_store { (file : List ℕ) → D.held desk.old ≡ Some file → StandsForNone file
        → EndsUnopened result × (input.new ≡ input.old) × (D.said desk.new ≡ D.said desk.old) }
    ensures reads_counted { CountsAt (result ≡ Status.ReadFault) (S.faults input.old)
        (S.faults input.new) }
    ensures counted { CountsFaults D.Desk (result ≡ Status.SayFault)
        (result ≡ Status.DeviceFault) desk.old desk.new }
{
    match reopen(alloc, desk, SLOT_LIMIT) {
        Ok(session) => status_of(run_script(alloc, Keeper::File(session), input, desk)),
        Err(ended) => Status::from(ended),
    }
}

fn status_of(ended: Result<(), Stop>) -> Status
    ensures { EndsAs ended result }
{
    match ended {
        Ok(()) => Status::Done,
        Err(stop) => Status::from(stop),
    }
}
