// A visit that is added, and the page that it goes to.
ghost use Rattle.std.specs.Prelude.{◌≡◌, ◌<◌, ◌∷◌, ℕ, List, [], true, IfOk, IfSome, OnOk};
ghost use Rattle.std.specs.Option.{option_to_list};
ghost use Rattle.pl_base.specs.Date.{IsDate};
ghost use Rattle.pl_base.specs.Good.{end_of_ids};
ghost use Rattle.pl_base.specs.Live.{live_slots, slot_limit};
ghost use Rattle.pl_base.specs.Rows.{HaveSums, IsSound, has_visit, store_of};
ghost use Rattle.pl_base.specs.Touched.{IsAtMostMore};
ghost use Rattle.pl_marks.specs.Refreshed.{AreRightBut, HaveCounts, mark_pages, source_page};
ghost use Rattle.pl_history.specs.Added.{AddsVisit, visit_pages};
ghost use Rattle.pl_history.specs.Addresses.{HaveAddresses};
ghost use Rattle.pl_history.specs.Bears.{BearsOnlyOn};
ghost use Rattle.pl_history.specs.Ready.{IsReady};
ghost use Rattle.pl_history.specs.Target.{HasRoom, IsTargetOf, WithTarget, target_pages};

use crate::{Target, is_place};
use pl_base::{NoMemory, PageId, Rows, Steps, View, VisitId, VisitRow};
use pl_link::Canon;
use pl_marks::{refresh, visited_mark};
use std::alloc::Global;
use std::sync::ledger::Ledger;

/// A visit that was added, its page, and the page's frecency from then on.
#[derive(Clone, Copy, Debug, PartialEq, Eq)]
pub struct AddedVisit {
    pub visit: VisitId,
    pub page: PageId,
    pub frecency: i64,
    /// The page that a redirect came from, whose frecency was computed afresh too.
    pub source: Option<PageId>,
}

/// The page where a visit goes: the known one, or a new one with the URL and the next id.
pub fn page_for<R: Rows, L: Ledger>(
    rows: &mut R,
    url: &Canon,
    target: Target,
    steps: &mut Steps<L>,
) -> Result<PageId, NoMemory>
    requires target { IsTargetOf (R.kept rows.old) url.now target }
    requires room { HasRoom url.now target (R.kept rows.old) }
    ensures page { IfOk result (WithTarget url.now target (R.kept rows.old) (R.kept rows.new)) }
    ensures borne { IfOk result (λ page. BearsOnlyOn (page ∷ [])
        (store_of (R.kept rows.old)) (store_of (R.kept rows.new))) }
    ensures pages { OnOk result (IsAtMostMore (target_pages url.now target)
        (R.pending rows.old) (R.pending rows.new)) }
    ensures base { OnOk result ((bytes : List ℕ) → R.base rows.old bytes → R.base rows.new bytes) }
{
    match target {
        Target::Known(page) => Ok(page),
        Target::New(origin) => rows.insert_page(url.text(), origin, steps),
    }
}

// A redirect bears on the page of its source too, which is the answer.
fn refresh_source<R: Rows, L: Ledger>(
    alloc: Global,
    rows: &mut R,
    views: &[View],
    row: &VisitRow,
    steps: &mut Steps<L>,
) -> Result<Option<PageId>, NoMemory>
    requires source { IfSome row.now.source (λ id. has_visit (R.kept rows.old) id ≡ true) }
    requires counts { HaveCounts (R.kept rows.old) }
    requires sums { HaveSums (R.kept rows.old) }
    requires right { AreRightBut (option_to_list (source_page (R.kept rows.old) row.now))
        (R.kept rows.old) }
    requires views { HaveAddresses views.now (R.kept rows.old) }
    ensures source { IfOk result (λ source. source ≡ source_page (R.kept rows.old) row.now) }
    ensures right { OnOk result (AreRightBut [] (R.kept rows.new)) }
    ensures store { OnOk result (store_of (R.kept rows.new) ≡ store_of (R.kept rows.old)) }
    ensures sums { OnOk result (HaveSums (R.kept rows.new)) }
    ensures pages { OnOk result (IsAtMostMore mark_pages
        (R.pending rows.old) (R.pending rows.new)) }
    ensures base { OnOk result ((bytes : List ℕ) → R.base rows.old bytes → R.base rows.new bytes) }
{
    if !row.transition.is_redirect() {
        return Ok(None);
    }
    let Some(source) = row.source else {
        return Ok(None);
    };
    let page = rows.visit_at(source, steps).unwrap().page;
    let mark = rows.page_at(page, steps).unwrap();
    let is_place = is_place(alloc, rows, views, page, steps)?;
    refresh(alloc, rows, page, mark, is_place, steps)?;
    Ok(Some(page))
}

/// The visit with the next id, to a page that is there. What is computed of it is computed afresh,
/// and so is what is computed of the page that a redirect came from.
pub fn add_visit<R: Rows, L: Ledger>(
    alloc: Global,
    rows: &mut R,
    views: &[View],
    row: &VisitRow,
    is_place: bool,
    steps: &mut Steps<L>,
) -> Result<AddedVisit, NoMemory>
    requires ready { IsReady row.now.page is_place (R.kept rows.old) }
    requires date { IsDate row.now.date }
    requires source { IfSome row.now.source (λ id. has_visit (R.kept rows.old) id ≡ true) }
    requires id { (R.kept rows.old).ids.visit < end_of_ids }
    requires live { live_slots (store_of (R.kept rows.old)) < slot_limit }
    requires views { HaveAddresses views.now (R.kept rows.old) }
    ensures added { IfOk result (AddsVisit row.now
        (store_of (R.kept rows.old)) (store_of (R.kept rows.new))) }
    ensures source { IfOk result (λ added.
        added.source ≡ source_page (R.kept rows.old) row.now) }
    ensures borne { IfOk result (λ added. BearsOnlyOn (added.page ∷ option_to_list added.source)
        (store_of (R.kept rows.old)) (store_of (R.kept rows.new))) }
    ensures sound { OnOk result (IsSound (R.kept rows.new)) }
    ensures pages { OnOk result (IsAtMostMore visit_pages
        (R.pending rows.old) (R.pending rows.new)) }
    ensures base { OnOk result ((bytes : List ℕ) → R.base rows.old bytes → R.base rows.new bytes) }
{
    let visit = rows.insert_visit(row, steps)?;
    let page = row.page;
    let mark = rows.page_at(page, steps).unwrap();
    let told = visited_mark(mark, row.transition);
    let frecency = refresh(alloc, rows, page, told, is_place, steps)?;
    let source = refresh_source(alloc, rows, views, row, steps)?;
    Ok(AddedVisit {
        visit,
        page,
        frecency,
        source,
    })
}
