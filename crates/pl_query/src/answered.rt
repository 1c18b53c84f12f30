// The answer to a query.
ghost use Rattle.std.specs.Prelude.{◌≡◌, Some, true, is_some, map, IfOk};
ghost use Rattle.std.specs.List.{All};
ghost use Rattle.std.specs.Option.{option_map};
ghost use Rattle.pl_base.specs.Good.{IsGood};
ghost use Rattle.pl_base.specs.Rows.{IsRight, store_of};
ghost use Rattle.pl_query.specs.declared.ordering.Candidate.{Candidate};
ghost use Rattle.pl_query.specs.Order.{Row};
ghost use Rattle.pl_query.specs.QueryAnswer as spec;
ghost use Rattle.pl_query.specs.QueryAnswer.{limited, told_row};
ghost use Rattle.pl_query.specs.Subjects.{row_at};

use crate::candidates::candidates;
use crate::ordering::{Candidate, put_in_order};
use crate::result_row::ResultRow;
use crate::shown::{Subject, date, mark, title};
use pl_base::{NoMemory, Rows, Steps};
use pl_conditions::Asked;
use pl_marks::tag_text;
use pl_place::Query;
use std::alloc::Global;
use std::sync::ledger::Ledger;

// The first of them, so many; all where the number is 0.
fn limit(candidates: &mut Vec<Candidate>, most: u32)
    ensures { candidates.new.items ≡ limited most candidates.old.items }
{
    if most != 0 {
        candidates.truncate(most as usize);
    }
}

// What is told of a row.
fn result_row<R: Rows, L: Ledger>(
    alloc: Global,
    rows: &R,
    subject: Subject,
    steps: &mut Steps<L>,
) -> Result<ResultRow, NoMemory>
    requires there { is_some (row_at (R.kept rows.now) subject) ≡ true }
    requires good { IsGood (store_of (R.kept rows.now)) }
    requires right { IsRight (R.kept rows.now) }
    ensures { IfOk result (λ told. (row : Row) → row_at (R.kept rows.now) subject ≡ Some row
        → told ≡ told_row (store_of (R.kept rows.now)) row) }
{
    let page = subject.page();
    let mark = mark(rows, page, steps);
    let url = rows.url(page, steps)?;
    let title = title(rows, subject, steps)?;
    let tags = tag_text(alloc, rows, page, steps)?;
    Ok(ResultRow {
        id: subject.id(),
        url,
        title,
        date: date(rows, subject, steps),
        count: mark.count,
        frecency: mark.frecency,
        tags,
    })
}

// What is told of the rows.
fn result_rows<R: Rows, L: Ledger>(
    alloc: Global,
    rows: &R,
    candidates: &[Candidate],
    steps: &mut Steps<L>,
) -> Result<Vec<ResultRow>, NoMemory>
    requires there { All (λ (c : Candidate). is_some (row_at (R.kept rows.now) c.subject) ≡ true)
        candidates.now }
    requires good { IsGood (store_of (R.kept rows.now)) }
    requires right { IsRight (R.kept rows.now) }
    ensures { IfOk result (λ told. map Some told.items ≡ map (λ (c : Candidate).
        option_map (told_row (store_of (R.kept rows.now))) (row_at (R.kept rows.now) c.subject))
        candidates.now) }
{
    let mut told = Vec::new(alloc);
    for candidate in candidates {
        told.push(result_row(alloc, rows, candidate.subject, steps)?)?;
    }
    Ok(told)
}

/// The rows that answer a query, in its order, so many as it asks for.
pub fn answer<R: Rows, L: Ledger>(
    alloc: Global,
    rows: &R,
    query: &Query,
    steps: &mut Steps<L>,
) -> Result<Vec<ResultRow>, NoMemory>
    requires good { IsGood (store_of (R.kept rows.now)) }
    requires right { IsRight (R.kept rows.now) }
    ensures { IfOk result (λ answered. answered.items
        ≡ map (told_row (store_of (R.kept rows.now)))
        (spec.answer (store_of (R.kept rows.now)) query.now)) }
{
    let asked = Asked::of(alloc, rows, query, steps)?;
    let mut candidates = candidates(alloc, rows, &asked, steps)?;
    put_in_order(&mut candidates, query.sort);
    limit(&mut candidates, query.max_results);
    result_rows(alloc, rows, &candidates, steps)
}
