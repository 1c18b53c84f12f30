ghost use Rattle.std.specs.Prelude.{◌≡◌, ◌≤◌, ◌↔◌, length, IsTrue};
ghost use Rattle.pl_base.specs.Due.{IsFirstDay, some_weighs_anew, weighs_anew};
ghost use Rattle.pl_base.specs.Visits.{sample_size};
ghost use Rattle.pl_score.specs.Due.{KeepsWeight, earlier_of};
ghost use Rattle.pl_score.specs.Sample.{dates_of};

use crate::sample::Sampled;
use crate::table::CHANGES;
use pl_base::{Day, Micros};

/// The first day after `day`, and no later than [`Day::LAST`], on which one of the sampled visits
/// has another weight than on the day before; none where there is no such day. A visit may lie
/// after `day`.
pub fn next_due(sample: &[Sampled], day: Day) -> Option<Day>
    requires ten { length sample.now ≤ sample_size }
    ensures { IsFirstDay (some_weighs_anew (dates_of sample.now)) day result }
{
    let mut due = None;
    for visit in sample {
        due = earlier(due, next_change(visit.date, day));
    }
    due
}

/// The first day after `day`, and no later than [`Day::LAST`], on which a visit of this date has
/// another weight than on the day before; none where there is no such day.
pub fn next_change(date: Micros, day: Day) -> Option<Day>
    ensures { IsFirstDay (λ other. weighs_anew other date) day result }
{
    let visited = date.day();
    for age in CHANGES {
        let change = visited.0 + age;
        if change > day.0 {
            return (change <= Day::LAST.0).then_some(Day(change));
        }
    }
    None
}

/// Whether a visit of this date is so old on `day` that its weight never changes again.
pub fn keeps_weight(date: Micros, day: Day) -> bool
    ensures { IsTrue result ↔ KeepsWeight day date }
{
    let [.., last] = CHANGES;
    date.day().0 + last <= day.0
}

/// The earlier of two days, either of which may be none.
pub fn earlier(one: Option<Day>, other: Option<Day>) -> Option<Day>
    ensures { result ≡ earlier_of one other }
{
    let Some(day) = one else {
        return other;
    };
    match other {
        Some(second) if second.0 < day.0 => other,
        _ => one,
    }
}
