ghost use Rattle.std.specs.Prelude.{◌≡◌, ◌≤◌};
ghost use Rattle.pl_base.specs.Tables.{bonus_of, greatest_bonus, transition_bonus, weight_of};

use pl_base::Transition;

/// What a visit that led to a redirect counts.
const REDIRECT_SOURCE_BONUS: u32 = 25;

/// What each visit counts more where the bookmark tree refers to its page.
const REFERENCED_BONUS: u32 = 75;

/// The weight of a visit of this age in days, from 10 to 100. The age of a visit
/// on a later day is negative.
pub fn weight(age: i64) -> u32
    ensures { result ≡ weight_of age }
{
    match age {
        ..=4 => 100,
        5..=14 => 70,
        15..=31 => 50,
        32..=90 => 30,
        _ => 10,
    }
}

/// The ages in days, ascending, at which the weight of a visit is another than on the day before.
pub(crate) const CHANGES: [u32; 4] = [5, 15, 32, 91];

/// What a visit counts, by its own transition, the transition of the visit that it came from by a
/// redirect, whether it led to a redirect itself, and whether the bookmark tree refers to its page.
pub fn bonus(own: Transition, source: Option<Transition>, is_source: bool, referenced: bool) -> u32
    ensures exact { result ≡ bonus_of own source is_source referenced }
    ensures greatest { result ≤ greatest_bonus }
{
    let visited = if is_source {
        REDIRECT_SOURCE_BONUS
    } else {
        transition_bonus(source.unwrap_or(own))
    };
    if referenced {
        visited + REFERENCED_BONUS
    } else {
        visited
    }
}

fn transition_bonus(transition: Transition) -> u32
    ensures exact { result ≡ transition_bonus transition }
    ensures greatest { result ≤ 2000 }
{
    match transition {
        Transition::Link => 100,
        Transition::Typed => 2000,
        Transition::Bookmark => 75,
        Transition::RedirectPermanent => 50,
        Transition::RedirectTemporary => 40,
        Transition::Embed | Transition::Download | Transition::FramedLink | Transition::Reload => 0,
    }
}
