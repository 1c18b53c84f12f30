// The tables of weights and bonuses, and scores of small samples.

use pl_base::Transition::*;
use pl_base::{Day, Micros, Transition};
use pl_score::{Sampled, bonus, score, weight};
use std::alloc::{AllocError, Global};
use std::process::Abort;
use std::test::Fail;

// Each age in days with its weight.
const WEIGHTS: &[(i64, u32)] = &[
    (-3, 100),
    (4, 100),
    (5, 70),
    (14, 70),
    (15, 50),
    (31, 50),
    (32, 30),
    (90, 30),
    (91, 10),
];

#[test]
fn weights(rt: HostRuntime) {
    for (age, want) in WEIGHTS {
        assert_eq!(rt; weight(*age), *want, "at {age} days");
    }
}

// Each transition, with that of its source, whether it is a redirect's source, whether its page is
// referenced, and the bonus.
const BONUSES: &[(Transition, Option<Transition>, bool, bool, u32)] = &[
    (Link, None, false, false, 100),
    (Typed, None, false, false, 2000),
    (Typed, None, false, true, 2075),
    (Bookmark, None, false, false, 75),
    (Bookmark, None, false, true, 150),
    (Embed, None, false, false, 0),
    (RedirectPermanent, None, false, false, 50),
    (RedirectPermanent, Some(Typed), false, false, 2000),
    (RedirectPermanent, Some(RedirectTemporary), false, true, 115),
    (RedirectPermanent, Some(Typed), true, false, 25),
    (RedirectTemporary, None, false, false, 40),
    (RedirectTemporary, Some(Reload), false, false, 0),
    (Download, None, false, false, 0),
    (FramedLink, None, false, false, 0),
    (Reload, None, false, false, 0),
    (Link, None, true, false, 25),
    (Link, None, true, true, 100),
];

#[test]
fn bonuses(rt: HostRuntime) {
    for (own, source, is_source, referenced, want) in BONUSES {
        let got = bonus(*own, *source, *is_source, *referenced);
        assert_eq!(rt; got, *want, "{own:?} {source:?} {is_source} {referenced}");
    }
}

const TODAY: Day = Day(20_000);

// A visit, by its age in days and its bonus.
type Visit = (i8, u32);

const LINK: Visit = (0, 100);

const RELOAD: Visit = (0, 0);

fn sampled(age: i8, bonus: u32) -> Sampled {
    let day = (i64::from(TODAY.0) - i64::from(age)) as u64;
    Sampled {
        date: Micros(day * 86_400_000_000),
        bonus,
    }
}

fn sample_of(alloc: Global, visits: &[Visit]) -> Result<Vec<Sampled>, AllocError> {
    let mut sample = Vec::new(alloc);
    for (age, bonus) in visits {
        sample.push(sampled(*age, *bonus))?;
    }
    Ok(sample)
}

fn score_of(rt: &impl Abort, sample: &[Sampled], count: u32) -> i64 {
    assert!(rt; !sample.is_empty());
    assert!(rt; sample.len() <= 10);
    assert!(rt; sample.iter().all(|visit| visit.bonus <= 2075));
    score(sample, TODAY, count, false, false, false)
}

// Each sample with the visits that count, and the score.
const SCORES: &[(&[Visit], u32, i64)] = &[
    (&[LINK], 1, 100),
    (&[(4, 100)], 1, 100),
    (&[(5, 100)], 1, 70),
    (&[(-3, 100)], 1, 100),
    (&[(0, 2000)], 1, 2000),
    (&[(0, 2075)], 1, 2075),
    (&[(0, 25)], 1, 25),
    // The mean of 100 and 0.
    (&[RELOAD, LINK], 1, 50),
    // 750 over 100 is 7.5.
    (&[(91, 75)], 1, 8),
    // 2 * 200 over 3 is 133.3.
    (&[RELOAD, LINK, LINK], 2, 134),
    // 2250 over 100 is 22.5, and 2 * 23 over 3 is 15.3. Rounded once, 2 * 22.5 over 3
    // is 15.
    (&[RELOAD, (90, 50), (91, 75)], 2, 16),
    (&[LINK; 10], 11, 1100),
    (&[RELOAD; 10], 1, -1),
    (&[RELOAD], 0, 0),
];

#[test]
fn scores(rt: HostRuntime) -> Result<(), Fail> {
    for (visits, count, want) in SCORES {
        let sample = sample_of(rt.alloc(), visits)?;
        assert_eq!(rt; score_of(&rt, &sample, *count), *want, "{visits:?} {count}");
    }
    Ok(())
}

// Whether a page is referenced, was typed and holds a query, and its score.
const UNVISITED: &[(bool, bool, bool, i64)] = &[
    (false, false, false, 0),
    (false, true, false, 0),
    (true, false, false, 140),
    (true, true, false, 340),
    (true, false, true, 0),
    (true, true, true, 0),
];

#[test]
fn scores_pages_without_visits_that_count(rt: HostRuntime) {
    for (referenced, typed, is_place, want) in UNVISITED {
        let got = score(&[], TODAY, 0, *referenced, *typed, *is_place);
        assert_eq!(rt; got, *want, "{referenced} {typed} {is_place}");
    }
}
