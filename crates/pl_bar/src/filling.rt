// The host that the address bar fills in.
ghost use Rattle.std.specs.Prelude.{◌≡◌, List, IfOk};
ghost use Rattle.pl_base.specs.declared.view.View.{View};
ghost use Rattle.pl_base.specs.View.{scored_views};
ghost use Rattle.pl_totals.specs.Standing.{Stands};
ghost use Rattle.pl_bar.specs.Filled.{filled};

use pl_base::{NoMemory, Steps, Txt};
use pl_totals::{Totals, without_www};
use std::alloc::Global;
use std::sync::ledger::Ledger;

/// The group of hosts that is filled in behind a text, and its total: of those that pass and whose
/// names begin with the text, without regard to the case of ASCII letters and to one leading
/// `www.`, the one with the greatest total. None where nothing is left of the text. No record is
/// read.
pub fn fill<L: Ledger>(
    alloc: Global,
    totals: &Totals,
    text: &str,
    steps: &mut Steps<L>,
) -> Result<Option<(Txt, u64)>, NoMemory>
    ensures filled { IfOk result (λ group. (views : List View) → Stands totals.now views
        → group ≡ filled (scored_views views) text.now) }
    ensures cost { steps.new ≡ steps.old }
{
    let mut lower = String::from_str(alloc, text)?;
    lower.make_ascii_lowercase();
    let host = without_www(lower.as_str());
    if host.is_empty() {
        return Ok(None);
    }
    totals.best(alloc, host)
}
