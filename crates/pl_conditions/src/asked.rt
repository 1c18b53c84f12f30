// A query that is made ready for many rows.
ghost use Rattle.std.specs.Prelude.{◌≡◌, map, IfOk};
ghost use Rattle.pl_base.specs.Fold.{folded};
ghost use Rattle.pl_base.specs.Rows.{store_of};
ghost use Rattle.pl_base.specs.Store.{Store};
ghost use Rattle.pl_conditions.specs.Asked.{IsAsked, moment_of};
ghost use Rattle.pl_conditions.specs.Conditions as spec;
ghost use Rattle.pl_conditions.specs.Conditions.{words_asked};

use pl_base::{Day, MICROS_PER_DAY, Micros, NoMemory, Rows, Steps, Txt};
use pl_place::{Query, TimeRef};
use pl_words::{fold, pieces};
use std::alloc::Global;
use std::sync::ledger::Ledger;

// Moments may lie past every date.
const DAY_LENGTH: i128 = MICROS_PER_DAY as i128;

/// A query, and what is the same for every row.
#[derive(Drop)]
pub struct Asked<'a> {
    pub query: &'a Query,
    // The first and the last microsecond of the times, which may lie past every date.
    pub begin: Option<i128>,
    pub end: Option<i128>,
    // The words that are looked for, folded.
    pub words: Vec<Txt>,
    // The folds of the tags.
    pub tags: Vec<Txt>,
}

impl<'a> Asked<'a> {
    pub fn of<R: Rows, L: Ledger>(
        alloc: Global,
        rows: &R,
        query: &'a Query,
        steps: &mut Steps<L>,
    ) -> Result<Asked<'a>, NoMemory>
        ensures { IfOk result (IsAsked (store_of (R.kept rows.now)) query.now) }
    {
        let day = rows.day(steps);
        let begin = moment(day, query.begin_time, query.begin_ref);
        let end = moment(day, query.end_time, query.end_ref);
        let words = words_asked(alloc, query)?;
        let tags = tags_asked(alloc, query)?;
        Ok(Asked {
            query,
            begin,
            end,
            words,
            tags,
        })
    }

    /// Whether the date lies within the times.
    pub fn is_in_times(&self, date: Micros) -> bool
        ensures { (store : Store) → IsAsked store self.now.query.now self.now
            → result ≡ spec.in_times store self.now.query.now date }
    {
        let date = i128::from(date.0);
        self.begin.is_none_or(|begin| begin <= date) && self.end.is_none_or(|end| date <= end)
    }
}

// The moment of a time behind its reference, if there is one.
fn moment(day: Day, time: Option<i64>, reference: TimeRef) -> Option<i128>
    ensures { (store : Store) → store.day ≡ day → result ≡ moment_of store time reference }
{
    let start = i128::from(day.0) * DAY_LENGTH;
    let from = match reference {
        TimeRef::Epoch => 0,
        TimeRef::Today => start,
        TimeRef::Now => start + DAY_LENGTH - 1,
    };
    Some(from + i128::from(time?))
}

/// The words that the query looks for, folded.
pub fn words_asked(alloc: Global, query: &Query) -> Result<Vec<Txt>, NoMemory>
    ensures { IfOk result (λ words. words.items ≡ words_asked query.now.terms) }
{
    match &query.terms {
        Some(text) => pieces(alloc, &fold(alloc, text.as_str())?),
        None => Ok(Vec::new(alloc)),
    }
}

/// The folds of the tags that the query asks for.
pub fn tags_asked(alloc: Global, query: &Query) -> Result<Vec<Txt>, NoMemory>
    ensures { IfOk result (λ folds. folds.items ≡ map folded query.now.tags) }
{
    let mut folds = Vec::new(alloc);
    for tag in query.tags.as_slice() {
        folds.push(fold(alloc, tag.text())?)?;
    }
    Ok(folds)
}
