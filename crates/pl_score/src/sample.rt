ghost use Rattle.std.specs.Prelude.{◌≡◌, ◌<◌, ◌≤◌, length, All};
ghost use Rattle.pl_base.specs.Frecency.{points, frecency_from};
ghost use Rattle.pl_base.specs.Frecency.{unvisited_frecency, visited_frecency};
ghost use Rattle.pl_base.specs.Tables.{greatest_bonus};
ghost use Rattle.pl_base.specs.Visits.{sample_size};
ghost use Rattle.pl_score.specs.Sample.{most_points, points_of};

use crate::table::weight;
use pl_base::{Day, Micros};

/// How many of its latest visits a page is scored by.
pub const SAMPLE_SIZE: usize = 10;

/// A visit of a page's sample: its date and what it counts.
#[derive(Clone, Copy, Debug, PartialEq, Eq)]
pub struct Sampled {
    pub date: Micros,
    /// What the visit counts, as [`bonus`](crate::bonus) gives it.
    pub bonus: u32,
}

/// The frecency of a page on a day, by a sample of its visits, its `visit_count`, whether the
/// bookmark tree refers to it, whether it was typed, and whether its address holds a query. It is
/// -1 where some visit counts and the sample adds nothing, and else at least 0.
pub fn score(
    sample: &[Sampled],
    day: Day,
    count: u32,
    referenced: bool,
    typed: bool,
    is_place: bool,
) -> i64
    requires ten { length sample.now ≤ sample_size }
    requires bonuses { All (λ v. v.bonus ≤ greatest_bonus) sample.now }
    requires sampled { 0 < count → 0 < length sample.now }
    ensures { result ≡ frecency_from (points_of day sample.now) (length sample.now)
        count referenced typed is_place }
{
    if count == 0 {
        unvisited_score(referenced, typed, is_place)
    } else {
        visited_score(total_points(sample, day), sample.len() as u64, count)
    }
}

fn unvisited_score(referenced: bool, typed: bool, is_place: bool) -> i64
    ensures { result ≡ unvisited_frecency referenced typed is_place }
{
    if is_place || !referenced {
        0
    } else if typed {
        340
    } else {
        140
    }
}

fn visited_score(total: u64, sampled: u64, count: u32) -> i64
    requires total { total ≤ most_points }
    requires sampled { 0 < sampled }
    ensures { result ≡ visited_frecency total sampled count }
{
    if total == 0 {
        return -1;
    }
    let frecency = (u64::from(count) * total.div_ceil(100)).div_ceil(sampled);
    frecency as i64
}

fn total_points(sample: &[Sampled], day: Day) -> u64
    requires ten { length sample.now ≤ sample_size }
    requires bonuses { All (λ v. v.bonus ≤ greatest_bonus) sample.now }
    ensures exact { result ≡ points_of day sample.now }
    ensures greatest { result ≤ most_points }
{
    sample.iter().map(|visit| points(visit, day)).sum()
}

fn points(visit: &Sampled, day: Day) -> u64
    ensures { result ≡ points day visit.now.date visit.now.bonus }
{
    let age = i64::from(day.0) - i64::from(visit.date.day().0);
    u64::from(weight(age)) * u64::from(visit.bonus)
}
