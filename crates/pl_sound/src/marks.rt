// The marks that the definitions give the pages of a file.
ghost use Rattle.std.specs.Prelude.{◌≡◌, ◌<◌, ◌≤◌, ◌^◌, length, map, take, IfOk};
ghost use Rattle.std.specs.List.{All, count_by};
ghost use Rattle.std.specs.List.Sorted.{IsStrictlyIncreasing};
ghost use Rattle.pl_base.specs.declared.row.Mark.{Mark as TheMark};
ghost use Rattle.pl_base.specs.Live.{slot_limit};
ghost use Rattle.pl_base.specs.Marks.{is_counted};
ghost use Rattle.pl_base.specs.Totals.{most_share, share};
ghost use Rattle.pl_base.specs.Visits.{sample_size};
ghost use Rattle.pl_check.specs.Rows.{stored_visit_ids};
ghost use Rattle.pl_sound.specs.Marks as spec;
ghost use Rattle.pl_sound.specs.Marks.{AreSources, right_mark, told_sample};

use crate::redirects::Redirects;
use crate::visits::PageVisits;
use pl_base::{Mark, NoMemory};
use pl_check::References;
use pl_score::{SAMPLE_SIZE, Sampled, bonus, score};
use pl_stored::{StoredPage, StoredRows, StoredVisit};
use std::alloc::Global;

/// What marks are computed from, found by page or by visit.
#[derive(Drop)]
struct Sources<'a> {
    visits: PageVisits,
    redirects: Redirects<'a>,
    references: References,
}

impl<'a> Sources<'a> {
    fn of(alloc: Global, rows: &'a StoredRows) -> Result<Sources<'a>, NoMemory>
        requires { IsStrictlyIncreasing (stored_visit_ids rows.now.visits) }
        ensures { IfOk result (AreSources rows.now) }
    {
        Ok(Sources {
            visits: PageVisits::of(alloc, &rows.visits)?,
            redirects: Redirects::of(alloc, rows)?,
            references: References::of(alloc, &rows.items)?,
        })
    }
}

/// The marks that the definitions give the pages, in their order.
pub(crate) fn right_marks(alloc: Global, rows: &StoredRows) -> Result<Vec<Mark>, NoMemory>
    requires visits { IsStrictlyIncreasing (stored_visit_ids rows.now.visits) }
    requires few { length rows.now.visits ≤ slot_limit }
    ensures exact { IfOk result (λ marks. marks.items ≡ map (right_mark rows.now) rows.now.pages) }
    ensures small { IfOk result (λ marks.
        All (λ (m : TheMark). share m.frecency ≤ most_share) marks.items) }
{
    let sources = Sources::of(alloc, rows)?;
    let mut marks = Vec::with_capacity(alloc, rows.pages.len())?;
    for page in &rows.pages {
        marks.push(mark(alloc, rows, &sources, page)?)?;
    }
    Ok(marks)
}

fn mark(
    alloc: Global,
    rows: &StoredRows,
    sources: &Sources<'_>,
    page: &StoredPage,
) -> Result<Mark, NoMemory>
    requires few { length rows.now.visits ≤ slot_limit }
    requires sources { AreSources rows.now sources.now }
    ensures { IfOk result (λ mark. mark ≡ right_mark rows.now page.now) }
{
    let visits = sources.visits.of_page(page.id);
    let is_referenced = sources.references.has(page.id);
    let is_place = page.url.is_place();
    let sampled = sampled(alloc, &sources.redirects, visits, is_referenced)?;
    let count = visit_count(visits);
    let frecency = score(
        &sampled,
        rows.day,
        count,
        is_referenced,
        page.typed,
        is_place,
    );
    Ok(Mark {
        frecency,
        count,
        typed: page.typed,
        hidden: is_place || are_unseen(&sources.redirects, visits),
    })
}

fn visit_count(visits: &[StoredVisit]) -> u32
    requires { length visits.now < 2 ^ 32 }
    ensures { result ≡ count_by (λ v. is_counted v.transition) visits.now }
{
    let counted = visits.iter().filter(|visit| visit.transition.is_counted());
    counted.count() as u32
}

// What the first of these visits count, as many as a sample has.
fn sampled(
    alloc: Global,
    redirects: &Redirects<'_>,
    visits: &[StoredVisit],
    is_referenced: bool,
) -> Result<Vec<Sampled>, NoMemory>
    ensures { IfOk result (λ sampled. sampled.items
        ≡ map (told_sample redirects.now is_referenced) (take sample_size visits.now)) }
{
    let latest = &visits[..visits.len().min(SAMPLE_SIZE)];
    let counted = latest
        .iter()
        .map(|visit| sampled_of(redirects, visit, is_referenced));
    Ok(counted.collect(alloc)?)
}

// What a visit counts in the sample of its page, which is told to be an item's or not.
fn sampled_of(redirects: &Redirects<'_>, visit: &StoredVisit, is_referenced: bool) -> Sampled
    ensures { result ≡ told_sample redirects.now is_referenced visit.now }
{
    Sampled {
        date: visit.date,
        bonus: bonus(
            visit.transition,
            redirects.source_of(visit),
            redirects.led_from(visit),
            is_referenced,
        ),
    }
}

// Whether there are visits, and each was within a frame or led to a redirect.
fn are_unseen(redirects: &Redirects<'_>, visits: &[StoredVisit]) -> bool
    ensures { result ≡ spec.are_unseen redirects.now visits.now }
{
    !visits.is_empty() && visits.iter().all(|visit| is_unseen(redirects, visit))
}

// Whether the visit was within a frame or led to a redirect.
fn is_unseen(redirects: &Redirects<'_>, visit: &StoredVisit) -> bool
    ensures { result ≡ spec.is_unseen redirects.now visit.now }
{
    visit.transition.is_framed() || redirects.led_from(visit)
}
