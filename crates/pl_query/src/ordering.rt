// The order of an answer.
ghost use Rattle.std.specs.Prelude.{◌≡◌, ◌≢◌, Some, true, is_some, IfOk};
ghost use Rattle.std.specs.List.{AllPairs};
ghost use Rattle.pl_base.specs.Fold.{folded};
ghost use Rattle.pl_base.specs.Good.{IsGood};
ghost use Rattle.pl_base.specs.Rows.{IsRight, store_of};
ghost use Rattle.pl_base.specs.Sorting.{sorted_by};
ghost use Rattle.pl_base.specs.Tags as tags;
ghost use Rattle.pl_query.specs.declared.ordering.Candidate.{Candidate};
ghost use Rattle.pl_query.specs.declared.ordering.SortValue.TheVariants.{Text};
ghost use Rattle.pl_query.specs.Candidates as spec;
ghost use Rattle.pl_query.specs.Candidates.{candidate_cmp, goes_before};
ghost use Rattle.pl_query.specs.Order.{Row};
ghost use Rattle.pl_query.specs.Subjects.{row_at, subject_id};

use crate::shown::{Subject, added, date, mark, modified, title};
use pl_base::{Micros, NoMemory, PageId, Rows, Steps, Txt};
use pl_marks::tag_text;
use pl_place::{Direction, Sort, SortKey};
use pl_words::fold;
use std::alloc::Global;
use std::cmp::Ordering;
use std::sync::ledger::Ledger;

/// What a row is sorted by. The values of one key are of one kind.
#[derive(PartialEq, Eq, PartialOrd, Ord, Drop)]
pub enum SortValue {
    Nothing,
    Text(Txt),
    Moment(Option<Micros>),
    Number(u64),
    Score(i64),
}

/// A row that may be answered: what it is of, and what it is sorted by.
#[derive(Drop)]
pub struct Candidate {
    pub subject: Subject,
    pub value: SortValue,
}

// The fold of the title that is shown.
fn folded_title<R: Rows, L: Ledger>(
    alloc: Global,
    rows: &R,
    subject: Subject,
    steps: &mut Steps<L>,
) -> Result<SortValue, NoMemory>
    requires { is_some (row_at (R.kept rows.now) subject) ≡ true }
    ensures { IfOk result (λ value. (row : Row) → row_at (R.kept rows.now) subject ≡ Some row
        → value ≡ Text (folded row.title)) }
{
    let title = title(rows, subject, steps)?;
    let text = fold(alloc, title.as_str())?;
    Ok(SortValue::Text(text))
}

// The fold of the page's tags.
fn folded_tags<R: Rows, L: Ledger>(
    alloc: Global,
    rows: &R,
    page: PageId,
    steps: &mut Steps<L>,
) -> Result<SortValue, NoMemory>
    requires { IsGood (store_of (R.kept rows.now)) }
    ensures { IfOk result (λ value. value
        ≡ Text (folded (tags.tag_text (store_of (R.kept rows.now)) page))) }
{
    let tags = tag_text(alloc, rows, page, steps)?;
    let text = fold(alloc, tags.as_str())?;
    Ok(SortValue::Text(text))
}

// The value of a row by a key.
fn key_value<R: Rows, L: Ledger>(
    alloc: Global,
    rows: &R,
    key: SortKey,
    subject: Subject,
    steps: &mut Steps<L>,
) -> Result<SortValue, NoMemory>
    requires there { is_some (row_at (R.kept rows.now) subject) ≡ true }
    requires good { IsGood (store_of (R.kept rows.now)) }
    requires right { IsRight (R.kept rows.now) }
    ensures { IfOk result (λ value. (row : Row) → row_at (R.kept rows.now) subject ≡ Some row
        → value ≡ spec.key_value (store_of (R.kept rows.now)) key row) }
{
    let page = subject.page();
    match key {
        SortKey::Title => folded_title(alloc, rows, subject, steps),
        SortKey::Date => Ok(SortValue::Moment(date(rows, subject, steps))),
        SortKey::Url => Ok(SortValue::Text(rows.url(page, steps)?)),
        SortKey::VisitCount => Ok(SortValue::Number(u64::from(mark(rows, page, steps).count))),
        SortKey::Added => Ok(SortValue::Number(added(rows, subject, steps).0)),
        SortKey::Modified => Ok(SortValue::Number(modified(rows, subject, steps).0)),
        SortKey::Tags => folded_tags(alloc, rows, page, steps),
        SortKey::Frecency => Ok(SortValue::Score(mark(rows, page, steps).frecency)),
    }
}

/// What a row is sorted by.
pub fn sort_value<R: Rows, L: Ledger>(
    alloc: Global,
    rows: &R,
    sort: Sort,
    subject: Subject,
    steps: &mut Steps<L>,
) -> Result<SortValue, NoMemory>
    requires there { is_some (row_at (R.kept rows.now) subject) ≡ true }
    requires good { IsGood (store_of (R.kept rows.now)) }
    requires right { IsRight (R.kept rows.now) }
    ensures { IfOk result (λ value. (row : Row) → row_at (R.kept rows.now) subject ≡ Some row
        → value ≡ spec.sort_value (store_of (R.kept rows.now)) sort row) }
{
    match sort {
        Sort::Unsorted => Ok(SortValue::Nothing),
        Sort::By(key, _) => key_value(alloc, rows, key, subject, steps),
    }
}

// How two candidates stand: by their values in the direction, and by ascending id where these are
// alike.
fn compare(sort: Sort, a: &Candidate, b: &Candidate) -> Ordering
    ensures { result ≡ candidate_cmp sort a.now b.now }
{
    let by_value = a.value.cmp(&b.value);
    let by_id = a.subject.id().cmp(&b.subject.id());
    match sort {
        Sort::By(_, Direction::Descending) => by_value.reverse().then(by_id),
        Sort::By(_, Direction::Ascending) => by_value.then(by_id),
        Sort::Unsorted => by_value.then(by_id),
    }
}

/// The candidates stand in the order from then on.
pub fn put_in_order(candidates: &mut Vec<Candidate>, sort: Sort)
    requires { AllPairs (λ (a b : Candidate). subject_id a.subject ≢ subject_id b.subject)
        candidates.old.items }
    ensures { candidates.new.items ≡ sorted_by (goes_before sort) candidates.old.items }
{
    candidates.sort_unstable_by(|a, b| compare(sort, a, b));
}
