// A page that a new day bears on.
ghost use Rattle.std.specs.Prelude.{◌≡◌, ◌+◌, ◌≤◌, ℕ, List, ◌∷◌, IfOk, OnOk};
ghost use Rattle.pl_base.specs.declared.id.PageId.{PageId};
ghost use Rattle.pl_base.specs.Rows.{HaveSums, store_of};
ghost use Rattle.pl_history.specs.Aging.{HadPageOf, HasPageOf, page_reads, with_aged};
ghost use Rattle.pl_marks.specs.Refreshed.{AreRightBut};

use crate::find::has_place_prefix;
use pl_base::{Mark, NoMemory, Rows, Steps, View};
use pl_marks::{Aged, aged_page, keep_mark};
use std::alloc::Global;
use std::sync::ledger::Ledger;

/// The page of a view has the frecency of the rows' day from then on. The answer is that, with the
/// page's due day. All else that the view tells holds on each day, and is not read again.
pub fn age_page<R: Rows, L: Ledger>(
    alloc: Global,
    rows: &mut R,
    view: &View,
    steps: &mut Steps<L>,
) -> Result<Aged, NoMemory>
    requires had { HadPageOf (store_of (R.kept rows.old)) view.now }
    requires sums { HaveSums (R.kept rows.old) }
    ensures aged { IfOk result (λ aged.
        HasPageOf (store_of (R.kept rows.old)) (with_aged view.now aged)) }
    ensures store { OnOk result (store_of (R.kept rows.new) ≡ store_of (R.kept rows.old)) }
    // One page fewer may be wrong.
    ensures right { OnOk result ((ids : List PageId) → AreRightBut (view.now.id ∷ ids)
        (R.kept rows.old) → AreRightBut ids (R.kept rows.new)) }
    ensures sums { OnOk result (HaveSums (R.kept rows.new)) }
    ensures base { OnOk result ((bytes : List ℕ) → R.base rows.old bytes → R.base rows.new bytes) }
    ensures cost { steps.new ≤ steps.old + page_reads }
{
    let aged = aged_page(
        alloc,
        rows,
        view.id,
        view.count,
        view.referenced,
        view.typed,
        has_place_prefix(view),
        steps,
    )?;
    let mark = Mark {
        frecency: aged.frecency,
        count: view.count,
        typed: view.typed,
        hidden: view.hidden,
    };
    keep_mark(rows, view.id, mark, steps);
    Ok(aged)
}
