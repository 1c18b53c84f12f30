// The bookmarks that a query of bookmarks lists.
ghost use Rattle.std.specs.Prelude.{◌≡◌, ◌++◌, ◌∷◌, [], Some, true, is_some, map, OnOk};
ghost use Rattle.std.specs.List.{filter, list_any};
ghost use Rattle.pl_base.specs.Good.{IsGood};
ghost use Rattle.pl_base.specs.Rows.{IsRight, KeptPage, has_page, page_at, store_of};
ghost use Rattle.pl_base.specs.Store.{Item};
ghost use Rattle.pl_base.specs.Tree.{has_item, is_page, item_at};
ghost use Rattle.pl_query.specs.declared.shown.Subject.TheVariants.{Bookmark};
ghost use Rattle.pl_conditions.specs.Asked.{IsAsked};
ghost use Rattle.pl_query.specs.Candidates as spec;
ghost use Rattle.pl_query.specs.Candidates.{candidate_of, mark_subject, marks_part, wanted_marks};
ghost use Rattle.pl_query.specs.Subjects.{row_at};

use crate::candidates::add;
use crate::ordering::Candidate;
use crate::shown::Subject;
use pl_base::{ItemId, NoMemory, PageId, Rows, Steps};
use pl_conditions::{Asked, is_in_parents, page_holds};
use pl_marks::tag_folder;
use std::alloc::Global;
use std::sync::ledger::Ledger;

// Whether the item is a bookmark that was added within the times, and is in one of the folders.
fn is_wanted<R: Rows, L: Ledger>(
    rows: &R,
    asked: &Asked<'_>,
    item: ItemId,
    steps: &mut Steps<L>,
) -> bool
    requires item { has_item (R.kept rows.now).items item ≡ true }
    requires asked { IsAsked (store_of (R.kept rows.now)) asked.now.query.now asked.now }
    ensures { (i : Item) → item_at (R.kept rows.now).items item ≡ Some i
        → result ≡ spec.is_wanted (store_of (R.kept rows.now)) asked.now.query.now i }
{
    if tag_folder(rows, item, steps).is_some() {
        return false;
    }
    let row = rows.item_at(item, steps).unwrap();
    asked.is_in_times(row.added) && is_in_parents(rows, asked, item, steps)
}

// Whether the page has a bookmark that is wanted.
fn has_wanted<R: Rows, L: Ledger>(
    rows: &R,
    asked: &Asked<'_>,
    page: PageId,
    steps: &mut Steps<L>,
) -> bool
    requires { IsAsked (store_of (R.kept rows.now)) asked.now.query.now asked.now }
    ensures { result ≡ list_any (spec.is_wanted (store_of (R.kept rows.now)) asked.now.query.now)
        (filter (λ (i : Item). is_page page i.page) (R.kept rows.now).items) }
{
    let mut next = rows.first_reference(page, steps);
    while let Some(item) = next {
        if is_wanted(rows, asked, item, steps) {
            return true;
        }
        next = rows.next_reference(item, steps);
    }
    false
}

// The item that has the page joins the candidates, if it is wanted.
fn add_item<R: Rows, L: Ledger>(
    alloc: Global,
    rows: &R,
    asked: &Asked<'_>,
    page: PageId,
    item: ItemId,
    candidates: &mut Vec<Candidate>,
    steps: &mut Steps<L>,
) -> Result<(), NoMemory>
    requires there { is_some (row_at (R.kept rows.now) (Bookmark item page)) ≡ true }
    requires good { IsGood (store_of (R.kept rows.now)) }
    requires right { IsRight (R.kept rows.now) }
    requires asked { IsAsked (store_of (R.kept rows.now)) asked.now.query.now asked.now }
    ensures { let q = asked.now.query.now
        in OnOk result ((p : KeptPage) (i : Item) → page_at (R.kept rows.now) page ≡ Some p
        → item_at (R.kept rows.now).items item ≡ Some i
        → candidates.new.items ≡ candidates.old.items
        ++ map (candidate_of mark_subject (store_of (R.kept rows.now)) q.sort)
        (wanted_marks (R.kept rows.now) q p (i ∷ []))) }
{
    if !is_wanted(rows, asked, item, steps) {
        return Ok(());
    }
    let subject = Subject::Bookmark(item, page);
    add(alloc, rows, asked.query.sort, subject, candidates, steps)
}

// The page's bookmarks that are wanted join the candidates.
fn add_wanted<R: Rows, L: Ledger>(
    alloc: Global,
    rows: &R,
    asked: &Asked<'_>,
    page: PageId,
    candidates: &mut Vec<Candidate>,
    steps: &mut Steps<L>,
) -> Result<(), NoMemory>
    requires page { has_page (R.kept rows.now) page ≡ true }
    requires good { IsGood (store_of (R.kept rows.now)) }
    requires right { IsRight (R.kept rows.now) }
    requires asked { IsAsked (store_of (R.kept rows.now)) asked.now.query.now asked.now }
    ensures { let q = asked.now.query.now
        in OnOk result ((p : KeptPage) → page_at (R.kept rows.now) page ≡ Some p
        → candidates.new.items ≡ candidates.old.items
        ++ map (candidate_of mark_subject (store_of (R.kept rows.now)) q.sort)
        (wanted_marks (R.kept rows.now) q p
        (filter (λ (i : Item). is_page page i.page) (R.kept rows.now).items))) }
{
    let mut next = rows.first_reference(page, steps);
    while let Some(item) = next {
        add_item(alloc, rows, asked, page, item, candidates, steps)?;
        next = rows.next_reference(item, steps);
    }
    Ok(())
}

/// The bookmarks of the page that are listed join the candidates.
pub fn add_bookmarks<R: Rows, L: Ledger>(
    alloc: Global,
    rows: &R,
    asked: &Asked<'_>,
    page: PageId,
    candidates: &mut Vec<Candidate>,
    steps: &mut Steps<L>,
) -> Result<(), NoMemory>
    requires page { has_page (R.kept rows.now) page ≡ true }
    requires good { IsGood (store_of (R.kept rows.now)) }
    requires right { IsRight (R.kept rows.now) }
    requires asked { IsAsked (store_of (R.kept rows.now)) asked.now.query.now asked.now }
    ensures { let q = asked.now.query.now
        in OnOk result ((p : KeptPage) → page_at (R.kept rows.now) page ≡ Some p
        → candidates.new.items ≡ candidates.old.items
        ++ map (candidate_of mark_subject (store_of (R.kept rows.now)) q.sort)
        (marks_part (R.kept rows.now) q p)) }
{
    if !has_wanted(rows, asked, page, steps) {
        return Ok(());
    }
    let holds = page_holds(alloc, rows, asked, page, steps)?;
    if !holds {
        return Ok(());
    }
    add_wanted(alloc, rows, asked, page, candidates, steps)
}
