// What followers keep, and whether two of them answer alike.
ghost use Rattle.std.specs.Prelude.{[]};

use crate::changes::url;
use crate::tables::{BEGINNINGS, DUE_DAYS, FIRST_DUE, HOSTS, IDS, PATHS, PREFIXES};
use pl_base::{Day, Micros, NoMemory, PageId};
use pl_calendar::Calendar;
use pl_follow::{FoldedTexts, Follow, OrderIndex, UrlIndex};
use pl_totals::{Totals, without_www};
use std::alloc::Global;
use trials_views::have_same_order;

// A follower that can be made and compared.
pub trait Kept: Follow + Drop {
    fn empty(alloc: Global) -> Self
        ensures { Self.stands result [] };

    // Whether both answer alike to all that is asked.
    fn is_like(&self, alloc: Global, other: &Self) -> Result<bool, NoMemory>;
}

impl Kept for UrlIndex {
    fn empty(alloc: Global) -> UrlIndex {
        UrlIndex::new(alloc)
    }

    fn is_like(&self, alloc: Global, other: &UrlIndex) -> Result<bool, NoMemory> {
        for prefix in PREFIXES {
            for host in HOSTS {
                if !find_alike(alloc, self, other, prefix, host)? {
                    return Ok(false);
                }
            }
        }
        Ok(true)
    }
}

fn find_alike(
    alloc: Global,
    one: &UrlIndex,
    other: &UrlIndex,
    prefix: &str,
    host: &str,
) -> Result<bool, NoMemory> {
    for path in 0..PATHS {
        let url = url(alloc, prefix, host, path)?;
        if one.find(url.as_str()) != other.find(url.as_str()) {
            return Ok(false);
        }
    }
    Ok(true)
}

impl Kept for OrderIndex {
    fn empty(alloc: Global) -> OrderIndex {
        OrderIndex::new(alloc)
    }

    fn is_like(&self, _alloc: Global, other: &OrderIndex) -> Result<bool, NoMemory> {
        Ok(
            walk_alike_by_frecency(self, other)
                && walk_alike_by_visit(self, other)
                && have_same_order(self, other),
        )
    }
}

fn walk_alike_by_frecency(one: &OrderIndex, other: &OrderIndex) -> bool {
    let mut place: Option<(i64, PageId)> = None;
    for _ in 0..IDS + 1 {
        let next = one.after(place);
        if next != other.after(place) {
            return false;
        }
        if next.is_none() {
            return true;
        }
        place = next;
    }
    false
}

fn walk_alike_by_visit(one: &OrderIndex, other: &OrderIndex) -> bool {
    let mut place: Option<(Micros, PageId)> = None;
    for _ in 0..IDS + 1 {
        let next = one.visited_before(place);
        if next != other.visited_before(place) {
            return false;
        }
        if next.is_none() {
            return true;
        }
        place = next;
    }
    false
}

impl Kept for FoldedTexts {
    fn empty(alloc: Global) -> FoldedTexts {
        FoldedTexts::new(alloc)
    }

    fn is_like(&self, _alloc: Global, other: &FoldedTexts) -> Result<bool, NoMemory> {
        Ok((0..IDS + 1).all(|id| self.of(PageId(id)) == other.of(PageId(id))))
    }
}

impl Kept for Calendar {
    fn empty(alloc: Global) -> Calendar {
        Calendar::new(alloc, Day(FIRST_DUE - 1))
    }

    fn is_like(&self, alloc: Global, other: &Calendar) -> Result<bool, NoMemory> {
        for day in FIRST_DUE - 1..FIRST_DUE + DUE_DAYS + 1 {
            let due = self.due_through(alloc, Day(day))?;
            if due != other.due_through(alloc, Day(day))? {
                return Ok(false);
            }
        }
        Ok(true)
    }
}

impl Kept for Totals {
    fn empty(alloc: Global) -> Totals {
        Totals::new(alloc)
    }

    fn is_like(&self, alloc: Global, other: &Totals) -> Result<bool, NoMemory> {
        for host in HOSTS {
            if !has_same_host(self, other, host) {
                return Ok(false);
            }
        }
        for text in BEGINNINGS {
            if self.best(alloc, text)? != other.best(alloc, text)? {
                return Ok(false);
            }
        }
        Ok(self.sums() == other.sums())
    }
}

fn has_same_host(one: &Totals, other: &Totals, host: &str) -> bool {
    let group = without_www(host);
    one.passes(group) == other.passes(group)
        && one.passes(host) == other.passes(host)
        && PREFIXES
            .iter()
            .all(|prefix| has_same_origin(one, other, prefix, host))
}

fn has_same_origin(one: &Totals, other: &Totals, prefix: &str, host: &str) -> bool {
    one.total(prefix, host) == other.total(prefix, host)
        && one.pages(prefix, host) == other.pages(prefix, host)
        && one.first_page(prefix, host) == other.first_page(prefix, host)
}
