// The page of a URL, and where a visit to it goes, found by what is known of the pages.
ghost use Rattle.std.specs.Prelude.{◌≡◌, true, IfOk, IfSome};
ghost use Rattle.std.specs.Option.{option_and_then};
ghost use Rattle.pl_base.specs.Rows as spec;
ghost use Rattle.pl_base.specs.Rows.{has_page, store_of};
ghost use Rattle.pl_history.specs.Target.{IsTargetOf};
ghost use Rattle.pl_known.specs.Known.{Knows};

use pl_base::{NoMemory, PageId, Rows, Slot, Steps};
use pl_history::Target;
use pl_known::Known;
use pl_link::{Canon, split};
use std::alloc::Global;
use std::sync::ledger::Ledger;

// The origin of a page, if there is one.
fn origin_of<R: Rows, L: Ledger>(
    rows: &R,
    page: Option<PageId>,
    steps: &mut Steps<L>,
) -> Option<Slot>
    requires { IfSome page (λ id. has_page (R.kept rows.now) id ≡ true) }
    ensures { result ≡ option_and_then (spec.origin_of (R.kept rows.now)) page }
{
    Some(rows.origin_of(page?, steps))
}

/// Where a visit to the URL goes.
///
/// Neither pages nor origins are walked over.
pub fn find_target<R: Rows, L: Ledger>(
    alloc: Global,
    rows: &R,
    known: &Known,
    url: &Canon,
    steps: &mut Steps<L>,
) -> Result<Target, NoMemory>
    requires knows { Knows (store_of (R.kept rows.now)) known.now }
    ensures { IfOk result (IsTargetOf (R.kept rows.now) url.now) }
{
    if let Some(view) = known.find(url.text()) {
        return Ok(Target::Known(view.id));
    }
    let parts = split(alloc, url)?;
    let page = known
        .totals
        .first_page(parts.prefix.as_str(), parts.host.as_str());
    Ok(Target::New(origin_of(rows, page, steps)))
}
