// What a row of an answer is of, and what it shows.
ghost use Rattle.std.specs.Prelude.{◌≡◌, Some, true, is_some, IfOk};
ghost use Rattle.pl_base.specs.Frecency.{frecency_of};
ghost use Rattle.pl_base.specs.Marks.{visit_count};
ghost use Rattle.pl_base.specs.Rows.{IsRight, KeptPage, has_page, has_visit, page_at, store_of};
ghost use Rattle.pl_base.specs.Rows.{visit_at};
ghost use Rattle.pl_base.specs.Store.{Visit};
ghost use Rattle.pl_query.specs.Order.{Row};
ghost use Rattle.pl_query.specs.Subjects.{row_at};
ghost use Rattle.pl_query.specs.Subjects as spec;

use crate::mark_dates::mark_dates;
use pl_base::{ItemId, Mark, Micros, NoMemory, PageId, Rows, Steps, Txt, VisitId};
use pl_marks::last_date;
use std::alloc::Global;
use std::sync::ledger::Ledger;

/// What a row is of, and the page that it shows.
#[derive(Clone, Copy, Debug, PartialEq, Eq)]
pub enum Subject {
    Page(PageId),
    Visit(VisitId, PageId),
    Bookmark(ItemId, PageId),
}

impl Subject {
    /// The id of its row.
    pub fn id(self) -> u32
        ensures { result ≡ spec.subject_id self }
    {
        match self {
            Subject::Page(page) => page.0,
            Subject::Visit(visit, _) => visit.0,
            Subject::Bookmark(item, _) => item.0,
        }
    }

    pub fn page(self) -> PageId
        ensures { result ≡ spec.subject_page self }
    {
        match self {
            Subject::Page(page) => page,
            Subject::Visit(_, page) => page,
            Subject::Bookmark(_, page) => page,
        }
    }
}

/// What is kept of a page.
pub fn mark<R: Rows, L: Ledger>(rows: &R, page: PageId, steps: &mut Steps<L>) -> Mark
    requires page { has_page (R.kept rows.now) page ≡ true }
    requires right { IsRight (R.kept rows.now) }
    ensures count { (p : KeptPage) → page_at (R.kept rows.now) page ≡ Some p
        → result.count ≡ visit_count (store_of (R.kept rows.now)) p.page.id }
    ensures frecency { (p : KeptPage) → page_at (R.kept rows.now) page ≡ Some p
        → result.frecency ≡ frecency_of (store_of (R.kept rows.now)) p.page }
{
    rows.page_at(page, steps).unwrap()
}

pub fn visit_date<R: Rows, L: Ledger>(rows: &R, visit: VisitId, steps: &mut Steps<L>) -> Micros
    requires { has_visit (R.kept rows.now) visit ≡ true }
    ensures { (v : Visit) → visit_at (R.kept rows.now) visit ≡ Some v → result ≡ v.date }
{
    rows.visit_at(visit, steps).unwrap().date
}

/// The title of the page, or of the bookmark.
pub fn title<R: Rows, L: Ledger>(
    rows: &R,
    subject: Subject,
    steps: &mut Steps<L>,
) -> Result<Txt, NoMemory>
    requires { is_some (row_at (R.kept rows.now) subject) ≡ true }
    ensures { IfOk result (λ title. (row : Row) → row_at (R.kept rows.now) subject ≡ Some row
        → title ≡ row.title) }
{
    match subject {
        Subject::Page(page) => rows.title(page, steps),
        Subject::Visit(_, page) => rows.title(page, steps),
        Subject::Bookmark(item, _) => rows.item_title(item, steps),
    }
}

/// The date of the visit, or of the latest visit to the page.
pub fn date<R: Rows, L: Ledger>(rows: &R, subject: Subject, steps: &mut Steps<L>) -> Option<Micros>
    requires { is_some (row_at (R.kept rows.now) subject) ≡ true }
    ensures { (row : Row) → row_at (R.kept rows.now) subject ≡ Some row → result ≡ row.date }
{
    match subject {
        Subject::Page(page) => last_date(rows, page, steps),
        Subject::Visit(visit, _) => Some(visit_date(rows, visit, steps)),
        Subject::Bookmark(_, page) => last_date(rows, page, steps),
    }
}

/// When the bookmark was added, or the page's bookmarks at the latest.
pub fn added<R: Rows, L: Ledger>(rows: &R, subject: Subject, steps: &mut Steps<L>) -> Micros
    requires { is_some (row_at (R.kept rows.now) subject) ≡ true }
    ensures { (row : Row) → row_at (R.kept rows.now) subject ≡ Some row
        → result.0 ≡ row.added }
{
    match subject {
        Subject::Page(page) => mark_dates(rows, page, steps).added,
        Subject::Visit(_, page) => mark_dates(rows, page, steps).added,
        Subject::Bookmark(item, _) => rows.item_at(item, steps).unwrap().added,
    }
}

/// When the bookmark was modified, or the page's bookmarks at the latest.
pub fn modified<R: Rows, L: Ledger>(rows: &R, subject: Subject, steps: &mut Steps<L>) -> Micros
    requires { is_some (row_at (R.kept rows.now) subject) ≡ true }
    ensures { (row : Row) → row_at (R.kept rows.now) subject ≡ Some row
        → result.0 ≡ row.modified }
{
    match subject {
        Subject::Page(page) => mark_dates(rows, page, steps).modified,
        Subject::Visit(_, page) => mark_dates(rows, page, steps).modified,
        Subject::Bookmark(item, _) => rows.item_at(item, steps).unwrap().modified,
    }
}
