// A visit, performed on rows.
ghost use Rattle.std.specs.Prelude.{◌≡◌, ◌≤◌, ◌+◌, ◌∷◌, Option, false, IfOk, IsErrOf, OnOk};
ghost use Rattle.std.specs.Option.{option_to_list};
ghost use Rattle.pl_base.specs.declared.id.VisitId.{VisitId};
ghost use Rattle.pl_base.specs.Address.{is_unrecorded_url};
ghost use Rattle.pl_base.specs.Date.{IsDate};
ghost use Rattle.pl_base.specs.Live.{live_slots, slot_limit};
ghost use Rattle.pl_base.specs.Rows.{IsSound, store_of};
ghost use Rattle.pl_base.specs.Touched.{IsAtMostMore};
ghost use Rattle.pl_base.specs.Visiting as visiting;
ghost use Rattle.pl_changes.specs.CameFrom.{CameFrom};
ghost use Rattle.pl_known.specs.Changes.{LeadTo};
ghost use Rattle.pl_known.specs.Known.{Knows};
ghost use Rattle.pl_step.specs.Step as spec;
ghost use Rattle.pl_done.specs.Performed.{Performs};
ghost use Rattle.pl_history.specs.Target.{IsTargetOf};
ghost use Rattle.pl_visiting.specs.VisitPages.{most_visit_pages, text_pages};

use pl_base::{
    Change, IdKind, Ids, Micros, NoMemory, PageId, Refusal, Rows, Steps, Transition, VisitId,
    VisitRow,
};
use pl_changes::changes;
use pl_done::{Done, find_target};
use pl_history::{AddedVisit, Target, add_visit, page_for, put_in_order, slots_after};
use pl_known::Known;
use pl_link::Canon;
use pl_step::{Command, Reply, StepError};
use std::alloc::Global;
use std::sync::ledger::Ledger;

// The source that a visit names has to stand.
fn source_refusal<R: Rows, L: Ledger>(
    rows: &R,
    source: Option<VisitId>,
    steps: &mut Steps<L>,
) -> Option<Refusal>
    ensures { result ≡ spec.source_refusal (store_of (R.kept rows.now)) source }
{
    let id = source?;
    match rows.visit_at(id, steps) {
        Some(_) => None,
        None => Some(Refusal::NoVisit(id)),
    }
}

// There have to be ids and slots for what a visit makes.
fn room_refusal<R: Rows, L: Ledger>(
    rows: &R,
    limit: u32,
    url: &Canon,
    target: Target,
    steps: &mut Steps<L>,
) -> Option<Refusal>
    requires { IsTargetOf (R.kept rows.now) url.now target }
    ensures { (transition : Transition) → (date : Micros) → (source : Option VisitId)
        → result ≡ spec.room_refusal limit (store_of (R.kept rows.now)) url.now (live_slots
        (visiting.after_visit (store_of (R.kept rows.now)) url.now transition date source)) }
{
    let ids = rows.ids(steps);
    let slots = slots_after(rows, url, target, steps);
    if target.is_new() && ids.page == Ids::END {
        Some(Refusal::NoIds(IdKind::Page))
    } else if ids.visit == Ids::END {
        Some(Refusal::NoIds(IdKind::Visit))
    } else if slots > u64::from(limit) {
        Some(Refusal::Full(slots))
    } else {
        None
    }
}

// The first cause to refuse a visit that would be recorded. Neither its
// transition nor its date matters.
fn refusal<R: Rows, L: Ledger>(
    rows: &R,
    limit: u32,
    url: &Canon,
    source: Option<VisitId>,
    target: Target,
    steps: &mut Steps<L>,
) -> Option<Refusal>
    requires target { IsTargetOf (R.kept rows.now) url.now target }
    requires recorded { is_unrecorded_url url.now ≡ false }
    ensures { (transition : Transition) → (date : Micros) → result
        ≡ spec.visit_refusal limit (store_of (R.kept rows.now)) url.now transition date source }
{
    source_refusal(rows, source, steps).or_else(|| room_refusal(rows, limit, url, target, steps))
}

// The pages that the visit bore on: its own, and the page that a redirect came from.
fn borne_pages(alloc: Global, added: AddedVisit) -> Result<Vec<PageId>, NoMemory>
    ensures { IfOk result (λ pages. pages.items ≡ added.page ∷ option_to_list added.source) }
{
    let mut pages = Vec::new(alloc);
    pages.push(added.page)?;
    if let Some(source) = added.source {
        pages.push(source)?;
    }
    Ok(pages)
}

// The changes of the views of these pages.
fn visit_changes<R: Rows, L: Ledger>(
    alloc: Global,
    rows: &R,
    known: &Known,
    added: AddedVisit,
    steps: &mut Steps<L>,
) -> Result<Vec<Change>, NoMemory>
    requires sound { IsSound (R.kept rows.now) }
    requires came { CameFrom (added.page ∷ option_to_list added.source) known.now
        (store_of (R.kept rows.now)) }
    ensures { IfOk result (λ changes. LeadTo (store_of (R.kept rows.now))
        known.now.views.items changes.items) }
{
    let mut pages = borne_pages(alloc, added)?;
    put_in_order(&mut pages);
    changes(alloc, rows, known, &pages, steps)
}

/// A visit to the URL on rows that may take so many slots.
pub fn visit<R: Rows, L: Ledger>(
    alloc: Global,
    rows: &mut R,
    known: &Known,
    limit: u32,
    url: &Canon,
    transition: Transition,
    date: Micros,
    source: Option<VisitId>,
    steps: &mut Steps<L>,
) -> Result<Done, StepError>
    requires date { IsDate date }
    requires sound { IsSound (R.kept rows.old) }
    requires most { limit ≤ slot_limit }
    requires knows { Knows (store_of (R.kept rows.old)) known.now }
    ensures performs { Performs R.kept R.base
        (spec.perform limit (store_of (R.kept rows.old))
        (Command.Visit url.now transition date source))
        rows.old rows.new known.now result }
    ensures pages { OnOk result (IsAtMostMore
        (most_visit_pages + text_pages url.now (store_of (R.kept rows.old)))
        (R.pending rows.old) (R.pending rows.new)) }
    ensures no_memory { IsErrOf result StepError.NoMemory → is_unrecorded_url url.now ≡ false }
{
    if !url.recorded() {
        return Err(StepError::Refused(Refusal::NotRecorded));
    }
    let target = find_target(alloc, rows, known, url, steps)?;
    if let Some(refusal) = refusal(rows, limit, url, source, target, steps) {
        return Err(StepError::Refused(refusal));
    }
    let page = page_for(rows, url, target, steps)?;
    let row = VisitRow {
        page,
        date,
        transition,
        source,
    };
    let added = add_visit(alloc, rows, &known.views, &row, url.is_place(), steps)?;
    let changes = visit_changes(alloc, rows, known, added, steps)?;
    let reply = Reply::Visit {
        visit: added.visit,
        page: added.page,
        frecency: added.frecency,
    };
    Ok(Done { reply, changes })
}
