// What is known of the origin of an address, and of the whole store.
ghost use Rattle.std.specs.Prelude.{◌≡◌, ℕ, List};
ghost use Rattle.pl_base.specs.declared.view.View.{View};
ghost use Rattle.pl_base.specs.Address.{record_of};
ghost use Rattle.pl_base.specs.Rows.{store_of};
ghost use Rattle.pl_base.specs.Store.{Store};
ghost use Rattle.pl_base.specs.Totals.{scored_pages};
ghost use Rattle.pl_base.specs.View.{scored_views};
ghost use Rattle.pl_known.specs.Known.{AreFollowed, Knows};
ghost use Rattle.pl_totals.specs.Standing.{Stands};
ghost use Rattle.pl_step.specs.Step as spec;
ghost use Rattle.pl_step.specs.StepErrors.{Says};

use pl_base::{Refusal, Rows, Steps};
use pl_known::Known;
use pl_link::{Canon, split};
use pl_step::{Reply, StepError};
use pl_totals::{Totals, without_www};
use std::alloc::Global;
use std::sync::ledger::Ledger;

// Whether the group of a host passes; the empty host has none.
fn passes(totals: &Totals, host: &str) -> bool
    ensures { (views : List View) → Stands totals.now views → (prefix : List ℕ)
        → result ≡ spec.origin_passes (scored_views views) (prefix, host.now) }
{
    !host.is_empty() && totals.passes(without_www(host))
}

/// What is known of the origin of the URL.
pub fn origin(alloc: Global, known: &Known, url: &Canon) -> Result<Reply, StepError>
    requires followed { AreFollowed known.now }
    ensures { (store : Store) → Knows store known.now → Says
        (spec.told_origin (scored_pages store) (record_of url.now)) result }
{
    let parts = split(alloc, url)?;
    let totals = &known.totals;
    let pages = totals.pages(parts.prefix.as_str(), parts.host.as_str());
    if pages == 0 {
        return Err(StepError::Refused(Refusal::NoPage));
    }
    let total = totals.total(parts.prefix.as_str(), parts.host.as_str());
    let passes = passes(totals, parts.host.as_str());
    Ok(Reply::Origin {
        prefix: parts.prefix,
        host: parts.host,
        reversed: parts.rev_host,
        total,
        pages: pages as u32,
        passes,
    })
}

/// How much the store holds. No memory is taken.
pub fn stats<R: Rows, L: Ledger>(rows: &R, known: &Known, steps: &mut Steps<L>) -> Reply
    requires knows { Knows (store_of (R.kept rows.now)) known.now }
    ensures { result ≡ spec.stats_reply (store_of (R.kept rows.now)) }
{
    let (origins, sum) = known.totals.sums();
    Reply::Stats {
        pages: known.views.len() as u32,
        visits: rows.visits(steps),
        items: rows.items(steps),
        origins,
        sum,
        slots: rows.live(steps),
    }
}
