// Visits with the ids of their pages and sources, as a file has them.
ghost use Rattle.std.specs.Prelude.{◌≡◌, List, IfOk, IfSome, None};
ghost use Rattle.std.specs.List.{AllZip};
ghost use Rattle.pl_reading.specs.Read as spec;
ghost use Rattle.pl_stored.specs.declared.stored.StoredVisit.{StoredVisit as Stored};

use crate::names::{named_visit, page_in};
use pl_base::{NoMemory, Steps};
use pl_record::Visit;
use pl_slot::Arena;
use pl_stored::StoredVisit;
use std::alloc::Global;
use std::sync::ledger::Ledger;

/// The visits with the ids of their pages and sources. `None` comes exactly where the number of a
/// page or of a source names none.
pub fn stored_visits<L: Ledger>(
    alloc: Global,
    arena: &Arena,
    visits: &[Visit],
    steps: &mut Steps<L>,
) -> Result<Option<Vec<StoredVisit>>, NoMemory>
    ensures read { IfOk result (λ found. IfSome found (λ stored.
        AllZip (spec.IsVisitRead arena.now) visits.now stored.items)) }
    ensures none { IfOk result (λ found. found ≡ None → (stored : List Stored)
        → AllZip (spec.IsVisitRead arena.now) visits.now stored → ⊥) }
{
    let mut stored = Vec::with_capacity(alloc, visits.len())?;
    for visit in visits {
        let Some(visit) = stored_visit(arena, visit, steps) else {
            return Ok(None);
        };
        stored.push(visit)?;
    }
    Ok(Some(stored))
}

fn stored_visit<L: Ledger>(
    arena: &Arena,
    visit: &Visit,
    steps: &mut Steps<L>,
) -> Option<StoredVisit>
    ensures read { IfSome result (spec.IsVisitRead arena.now visit.now) }
    ensures none { result ≡ None → (stored : Stored)
        → spec.IsVisitRead arena.now visit.now stored → ⊥ }
{
    Some(StoredVisit {
        id: visit.id,
        page: page_in(arena, visit.page, steps)?,
        date: visit.date,
        transition: visit.transition,
        source: named_visit(arena, visit.source, steps)?,
    })
}
