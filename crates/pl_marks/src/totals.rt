// A page's mark, and with it the total of its origin.
ghost use Rattle.std.specs.Prelude.{◌≡◌, ◌+◌, ◌≤◌, ℕ, List, true};
ghost use Rattle.pl_base.specs.Rows.{HaveSums, has_page, with_mark, with_origins};
ghost use Rattle.pl_base.specs.Totals as spec;
ghost use Rattle.pl_base.specs.Totals.{most_share};
ghost use Rattle.pl_base.specs.Touched.{IsAtMostMore};
ghost use Rattle.pl_marks.specs.Aged.{mark_reads};
ghost use Rattle.pl_marks.specs.Refreshed.{mark_pages};

use pl_base::{Mark, PageId, Rows, Steps};
use std::sync::ledger::Ledger;

// What a frecency adds to the total of the origin: itself where it is positive.
fn share(frecency: i64) -> u64
    ensures { result ≡ spec.share frecency }
{
    u64::try_from(frecency).unwrap_or(0)
}

/// The page has this mark from then on, and the total of its origin moves by the difference of
/// what its frecency adds.
pub fn keep_mark<R: Rows, L: Ledger>(rows: &mut R, page: PageId, mark: Mark, steps: &mut Steps<L>)
    requires page { has_page (R.kept rows.old) page ≡ true }
    requires sums { HaveSums (R.kept rows.old) }
    requires small { spec.share mark.frecency ≤ most_share }
    ensures kept { R.kept rows.new
        ≡ with_origins (R.kept rows.new).origins (with_mark page mark (R.kept rows.old)) }
    ensures sums { HaveSums (R.kept rows.new) }
    ensures pages { IsAtMostMore mark_pages (R.pending rows.old) (R.pending rows.new) }
    ensures base { (bytes : List ℕ) → R.base rows.old bytes → R.base rows.new bytes }
    ensures cost { steps.new ≤ steps.old + mark_reads }
{
    let was = rows.page_at(page, steps).unwrap();
    let origin = rows.origin_of(page, steps);
    let total = rows.origin_at(origin, steps).total;
    rows.set_mark(page, mark, steps);
    rows.set_total(
        origin,
        total - share(was.frecency) + share(mark.frecency),
        steps,
    );
}
