// The script of the input on a store.
ghost use Rattle.std.specs.Prelude.{◌≡◌, true, false, Err};
ghost use Rattle.pl_base.specs.Live.{slot_limit};
ghost use Rattle.pl_desk.specs.Shown.{ShowsOnly};
ghost use Rattle.pl_desk.specs.Counts.{CountsAt};
ghost use Rattle.pl_desk.specs.Calls.{LeavesFile};
ghost use Rattle.pl_store.specs.Keeper.{IsKept, is_file, keeper_limit, keeper_store};
ghost use Rattle.pl_script.specs.Script.{script};
ghost use Rattle.places.specs.Ending.{IfTold, LeavesAtEnd, WritesRead};
ghost use Rattle.places.specs.declared.status.Status.{Status};
ghost use Rattle.places.specs.Status.{EndsAs};
ghost use Rattle.places.specs.Stops.{ShowsAnswered};
ghost use Rattle.places.specs.Serving.{CountsFaults};

use crate::input::{PIECE, next_piece};
use crate::script_run::ScriptRun;
use crate::stop::Stop;
use pl_desk::{Desk, Source};
use pl_store::Keeper;
use pl_task::SCRIPT_LIMIT;
use std::alloc::Global;

/// Answers the lines of the input as they come.
pub fn run_script<S: Source, D: Desk>(
    alloc: Global,
    keeper: Keeper,
    input: &mut S,
    desk: &mut D,
) -> Result<(), Stop>
    requires limit { keeper_limit keeper ≡ slot_limit }
    ensures ends { (status : Status) → EndsAs result status
        → IfTold (S.left input.old) (D.said desk.old) (λ bytes before. (first : D)
        → IsKept D.Desk keeper first desk.old → LeavesAtEnd D.Desk status (is_file keeper) first
        (keeper_store keeper) bytes before (S.left input.new) desk.new) }
    ensures shows { IfTold (S.left input.old) (D.said desk.old) (λ bytes before. (first : D)
        → IsKept D.Desk keeper first desk.old → ShowsOnly D.Desk desk.old desk.new
        (ShowsAnswered D.Desk (is_file keeper) first slot_limit (keeper_store keeper) (script bytes)
        before)) }
    ensures bounded { IfTold (S.left input.old) (D.said desk.old) (λ bytes before.
        WritesRead (keeper_store keeper) bytes (S.left input.new)
        (D.written desk.old) (D.written desk.new)) }
    ensures alone { is_file keeper ≡ false → LeavesFile D.Desk desk.old desk.new }
    ensures in_file { result ≡ Err Stop.DeviceFault → is_file keeper ≡ true }
    ensures reads_counted { CountsAt (result ≡ Err Stop.ReadFault) (S.faults input.old)
        (S.faults input.new) }
    ensures counted { CountsFaults D.Desk (result ≡ Err Stop.SayFault)
        (result ≡ Err Stop.DeviceFault) desk.old desk.new }
{
    let mut run = ScriptRun::new(alloc, keeper);
    let mut read = 0;
    while read < SCRIPT_LIMIT {
        let piece = next_piece(alloc, input, PIECE.min(SCRIPT_LIMIT - read))?;
        if piece.is_empty() {
            run.finish(desk)?;
            return Ok(());
        }
        run = run.take_all(&piece, desk)?;
        read += piece.len();
    }
    Err(Stop::TooLong)
}
