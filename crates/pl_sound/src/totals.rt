// Whether the totals of origins are the sums of their pages' frecencies.
ghost use Rattle.std.specs.Prelude.{◌≡◌, ◌↔◌, ◌≤◌, ℕ, IfOk, IsTrue, length, map};
ghost use Rattle.std.specs.List.{All};
ghost use Rattle.pl_base.specs.Live.{slot_limit};
ghost use Rattle.pl_base.specs.Totals as spec;
ghost use Rattle.pl_base.specs.Totals.{most_share};
ghost use Rattle.pl_record.specs.declared.rows.Place.{Place as Row};
ghost use Rattle.pl_sound.specs.Sums.{named_sum, origin_sum, sum_in};

use crate::sums::Sums;
use pl_base::{NoMemory, Slot};
use pl_record::Place;
use std::alloc::Global;

/// Whether each of these totals is the sum of the positive frecencies of its origin's pages.
pub(crate) fn are_totals(
    alloc: Global,
    places: &[Place],
    origins: &[Slot],
    totals: &[u64],
) -> Result<bool, NoMemory>
    requires few { length places.now ≤ slot_limit }
    requires small { All (λ (p : Row). spec.share p.mark.frecency ≤ most_share) places.now }
    ensures { IfOk result (λ right.
        IsTrue right ↔ (map (origin_sum places.now) origins.now ≡ totals.now)) }
{
    let sums = sums_of(alloc, places)?;
    let right: Vec<u64> = origins
        .iter()
        .map(|origin| sums.of(*origin))
        .collect(alloc)?;
    Ok(right.as_slice() == totals)
}

// The sums of the positive frecencies of pages, by the names of their origins.
fn sums_of(alloc: Global, places: &[Place]) -> Result<Sums, NoMemory>
    requires few { length places.now ≤ slot_limit }
    requires small { All (λ (p : Row). spec.share p.mark.frecency ≤ most_share) places.now }
    ensures { IfOk result (λ sums. (name : ℕ) → sum_in sums name ≡ named_sum places.now name) }
{
    let mut sums = Sums::new(alloc);
    for place in places {
        sums.add(place.origin, share(place.mark.frecency))?;
    }
    Ok(sums)
}

// What a frecency adds to the total of the origin.
fn share(frecency: i64) -> u64
    ensures { result ≡ spec.share frecency }
{
    u64::try_from(frecency).unwrap_or(0)
}
