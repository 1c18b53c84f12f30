// What a file of linked slots stands for.
ghost use Rattle.std.specs.Prelude.{List, IfOk, IsErrOf};
ghost use Rattle.pl_accept.specs.Accepted.{IsAccepted};
ghost use Rattle.pl_base.specs.declared.id.VisitId.{VisitId};
ghost use Rattle.pl_base.specs.Rows.{IsSound, Kept};
ghost use Rattle.pl_base.specs.Store.{Visit};
ghost use Rattle.pl_reading.specs.File.{IsNamed};
ghost use Rattle.pl_record.specs.Form.{IsForm};
ghost use Rattle.pl_slot.specs.Arena.{IsArena, header_of};

use crate::accepted::Accepted;
use crate::by_ids::rows_by_ids;
use crate::counted::are_counted;
use crate::good::have_good_rows;
use crate::linked::are_linked;
use pl_base::{CheckError, Steps};
use pl_load::read_file;
use pl_slot::Arena;
use pl_sound::are_right;
use std::alloc::Global;
use std::sync::ledger::Ledger;

/// The rows of a file whose header names the form. `NotAStore` comes exactly where its slots are
/// the form of no good store's rows with the marks and totals that the definitions give.
///
/// It reads each slot a few times, sorts each kind of row, parses each URL once, and computes each
/// mark and total afresh.
pub fn accept<L: Ledger>(
    alloc: Global,
    arena: &Arena,
    steps: &mut Steps<L>,
) -> Result<Accepted, CheckError>
    requires arena { IsArena arena.now }
    requires named { IsNamed (header_of arena.now) }
    ensures accepted { IfOk result (IsAccepted arena.now) }
    ensures none { IsErrOf result CheckError.NotAStore → (kept : Kept)
        → (targets : VisitId → List Visit) → IsForm kept targets arena.now
        → IsSound kept → ⊥ }
{
    let rows = read_file(alloc, arena, steps)?;
    if !have_good_rows(alloc, &rows.stored)? {
        return Err(CheckError::NotAStore);
    }
    if !are_counted(alloc, arena, &rows)? {
        return Err(CheckError::NotAStore);
    }
    if !are_linked(alloc, arena, &rows, steps)? {
        return Err(CheckError::NotAStore);
    }
    if !are_right(alloc, &rows)? {
        return Err(CheckError::NotAStore);
    }
    rows_by_ids(alloc, rows)
}
