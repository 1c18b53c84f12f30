// The day on which the weight of some visit changes next.
use pl_base::{Day, Micros, NoMemory};
use pl_score::{Sampled, next_due};
use std::alloc::Global;
use std::process::Abort;
use std::test::Fail;

const MICROS_PER_DAY: u64 = 86_400_000_000;

// The last day of all.
const LAST: u32 = 2_932_896;

// The days of visits, the store's day, and the day that is next.
type Case = (&'static [u32], u32, Option<u32>);

// A visit weighs less from the day on that lies 5, 15, 32 and 91 days behind its own.
const CASES: &[Case] = &[
    (&[], 20_000, None),
    (&[20_000], 20_000, Some(20_005)),
    (&[19_996], 20_000, Some(20_001)),
    (&[19_995], 20_000, Some(20_010)),
    (&[19_986], 20_000, Some(20_001)),
    (&[19_985], 20_000, Some(20_017)),
    (&[19_969], 20_000, Some(20_001)),
    (&[19_968], 20_000, Some(20_059)),
    (&[19_910], 20_000, Some(20_001)),
    (&[19_909], 20_000, None),
    (&[0], 20_000, None),
    (&[20_001], 20_000, Some(20_006)),
    (&[21_000], 20_000, Some(21_005)),
    (&[0], 0, Some(5)),
    (&[0], 4, Some(5)),
    (&[0], 5, Some(15)),
    (&[0], 90, Some(91)),
    (&[0], 91, None),
    // of several the earliest
    (&[19_909, 19_985, 20_000], 20_000, Some(20_005)),
    (&[20_000, 19_985, 19_909], 20_000, Some(20_005)),
    (&[20_001, 19_968], 20_000, Some(20_006)),
    (&[19_909, 19_900, 0], 20_000, None),
    (&[19_995, 19_995, 19_985], 20_000, Some(20_010)),
    (
        &[0, 1, 2, 3, 19_968, 19_985, 20_040, 19_909, 19_995, 21_000],
        20_000,
        Some(20_010),
    ),
    // none past the last day of all
    (&[LAST - 5], LAST - 1, Some(LAST)),
    (&[LAST - 4], LAST - 1, None),
    (&[LAST - 15], LAST - 1, Some(LAST)),
    (&[LAST - 14], LAST - 1, None),
    (&[LAST - 32], LAST - 1, Some(LAST)),
    (&[LAST - 91], LAST - 1, Some(LAST)),
    (&[LAST - 90], LAST - 1, None),
    (&[LAST - 4, LAST - 91], LAST - 1, Some(LAST)),
    (&[LAST], LAST - 200, None),
    (&[LAST - 5], LAST, None),
    (&[LAST - 91], LAST, None),
    (&[0], LAST, None),
];

// A visit on each of the days, so many microseconds behind its beginning.
fn sample(alloc: Global, days: &[u32], behind: u64) -> Result<Vec<Sampled>, NoMemory> {
    let mut sample = Vec::with_capacity(alloc, days.len())?;
    for day in days {
        let date = u64::from(*day)
            .wrapping_mul(MICROS_PER_DAY)
            .wrapping_add(behind);
        sample.push(Sampled {
            date: Micros(date),
            bonus: 100,
        })?;
    }
    Ok(sample)
}

fn expect(rt: &impl Abort, alloc: Global, case: &Case, behind: u64) -> Result<(), NoMemory> {
    let (days, day, wanted) = *case;
    let sample = sample(alloc, days, behind)?;
    assert!(rt; sample.len() <= 10);
    let due = next_due(&sample, Day(day));
    assert!(rt; due == wanted.map(Day), "{days:?} on {day}: {due:?}");
    Ok(())
}

#[test]
fn a_visit_weighs_less_from_some_days_on(rt: HostRuntime) -> Result<(), Fail> {
    for case in CASES {
        expect(&rt, rt.alloc(), case, 0)?;
        expect(&rt, rt.alloc(), case, MICROS_PER_DAY - 1)?;
    }
    Ok(())
}
