// Pages that were visited on some days, and days that come to their store.
use pl_base::MICROS_PER_DAY;
use std::alloc::{AllocError, Global};

/// The day on which a store of a case begins.
pub const FIRST_DAY: u32 = 20_000;

const LAST_DAY: u32 = 2_932_896;

/// Pages from a number on, up to another one, with a visit by a link on each of the days.
pub type Pages = (u32, u32, &'static [u32]);

/// A day that comes, and how many pages are due on it: each has another frecency then.
pub type Told = (u32, u32);

/// A store, and the days that come to it one after another.
pub struct Case {
    pub pages: &'static [Pages],
    pub days: &'static [Told],
}

pub const CASES: &[Case] = &[
    Case {
        pages: &[],
        days: &[(20_000, 0), (20_001, 0)],
    },
    // Of two hundred pages those that were visited four days before.
    Case {
        pages: &[(0, 100, &[20_000]), (100, 200, &[19_996])],
        days: &[(20_000, 0), (20_001, 100), (20_002, 0), (20_005, 100)],
    },
    // One step past all days on which they are due.
    Case {
        pages: &[
            (0, 5, &[20_000]),
            (5, 10, &[19_950, 19_990, 20_000]),
            (10, 15, &[20_010]),
        ],
        days: &[(20_200, 15), (20_200, 0), (20_201, 0), (LAST_DAY, 0)],
    },
    // A visit that lies ahead counts as one of today until its day is over.
    Case {
        pages: &[(0, 3, &[20_300])],
        days: &[
            (20_100, 0),
            (20_304, 0),
            (20_305, 3),
            (20_314, 0),
            (20_315, 3),
            (20_331, 0),
            (20_332, 3),
            (20_390, 0),
            (20_391, 3),
            (20_392, 0),
        ],
    },
    // One visit before the day and one ahead, which weigh less from one day on in the end.
    Case {
        pages: &[(0, 2, &[19_950, 20_026])],
        days: &[(20_030, 0), (20_031, 2), (20_040, 0), (20_041, 2)],
    },
    // The eleventh visit is not sampled, and nothing is due by it.
    Case {
        pages: &[(
            0,
            2,
            &[
                19_910, 20_000, 20_000, 20_000, 20_000, 20_000, 20_000, 20_000, 20_000, 20_000,
                20_000,
            ],
        )],
        days: &[(20_001, 0), (20_004, 0), (20_005, 2)],
    },
    Case {
        pages: &[(0, 1, &[20_000])],
        days: &[(LAST_DAY, 1), (LAST_DAY, 0)],
    },
];

/// The line of a visit to the page with this number.
pub fn visit_line(
    alloc: Global,
    page: u32,
    transition: u32,
    day: u32,
) -> Result<String, AllocError> {
    let host = page % 7;
    let date = u64::from(day).wrapping_mul(MICROS_PER_DAY);
    format!(in alloc; "visit\thttps://h{host}.example/{page}\t{transition}\t{date}")
}

// The visits to a page, one on each of the days.
fn push_visits(
    alloc: Global,
    lines: &mut Vec<String>,
    page: u32,
    days: &[u32],
) -> Result<(), AllocError> {
    for day in days {
        lines.push(visit_line(alloc, page, 1, *day)?)?;
    }
    Ok(())
}

fn push_pages(alloc: Global, lines: &mut Vec<String>, pages: Pages) -> Result<(), AllocError> {
    let (first, end, days) = pages;
    for page in first..end {
        push_visits(alloc, lines, page, days)?;
    }
    Ok(())
}

/// The lines of all visits of a case.
pub fn lines_of(alloc: Global, case: &Case) -> Result<Vec<String>, AllocError> {
    let mut lines = Vec::new(alloc);
    for pages in case.pages {
        push_pages(alloc, &mut lines, *pages)?;
    }
    Ok(lines)
}
