// How many slots a store takes after a visit.
ghost use Rattle.std.specs.Prelude.{◌≡◌, ◌≤◌, ◌<◌, ◌+◌, Option, is_none, if◌then◌else◌};
ghost use Rattle.pl_base.specs.declared.id.VisitId.{VisitId};
ghost use Rattle.pl_base.specs.Live as live;
ghost use Rattle.pl_base.specs.Live.{live_slots};
ghost use Rattle.pl_base.specs.Rows.{store_of};
ghost use Rattle.pl_base.specs.Visiting as visiting;
ghost use Rattle.pl_history.specs.Target.{IsTargetOf};

use crate::Target;
use pl_base::{Micros, Rows, Slot, Steps, Transition, chunks};
use pl_link::Canon;
use std::sync::ledger::Ledger;

// The slots of a new page with its first visit, and of its origin where that is new.
fn new_slots(url: &Canon, origin: Option<Slot>) -> u64
    ensures slots { result ≡ 2 + live.chunks url.now + (if is_none origin then 1 else 0) }
    ensures most { result ≤ 550 }
{
    2 + chunks(url.text()) + u64::from(origin.is_none())
}

/// How many slots the store takes after a visit to the URL.
pub fn slots_after<R: Rows, L: Ledger>(
    rows: &R,
    url: &Canon,
    target: Target,
    steps: &mut Steps<L>,
) -> u64
    requires { IsTargetOf (R.kept rows.now) url.now target }
    ensures after { (transition : Transition) → (date : Micros) → (source : Option VisitId)
        → result ≡ live_slots
        (visiting.after_visit (store_of (R.kept rows.now)) url.now transition date source) }
    ensures grows { live_slots (store_of (R.kept rows.now)) < result }
    ensures most { result ≤ live_slots (store_of (R.kept rows.now)) + 550 }
{
    let live = rows.live(steps);
    match target {
        Target::Known(_) => live + 1,
        Target::New(origin) => live + new_slots(url, origin),
    }
}
