// The first of visits, the latest first.
ghost use Rattle.std.specs.Prelude.{◌≡◌, ◌≤◌, ◌++◌, ◌∷◌, ℕ, [], List, false, length, map, OnOk};
ghost use Rattle.pl_dated.specs.Latest.{AreApart, Keeps, Seen, first_seen, is_past_floor};
ghost use Rattle.pl_dated.specs.Latest.{seen, seen_cmp};
ghost use Rattle.pl_dated.specs.Latest as spec;

use pl_base::{Micros, NoMemory, View, VisitId};
use std::alloc::Global;
use std::cmp::Ordering;

/// A visit that is found, and the view of its page.
#[derive(Clone, Copy)]
pub struct FoundVisit<'a> {
    pub view: &'a View,
    pub visit: VisitId,
    pub date: Micros,
}

/// The first of the visits that were added, so many: the latest first, and those of one date by
/// ascending id. Up to as many more are kept until they are cut off.
#[derive(Drop)]
pub struct First<'a> {
    pub found: Vec<FoundVisit<'a>>,
    pub most: usize,
    // So many are found of this date or a later one, and none of an earlier one.
    pub floor: Option<Micros>,
}

impl<'a> First<'a> {
    /// None yet.
    pub fn new(alloc: Global, most: u32) -> First<'a>
        ensures { Keeps most result [] }
    {
        First {
            found: Vec::new(alloc),
            most: most as usize,
            floor: None,
        }
    }

    /// Whether no visit of the date or an earlier one is among the first.
    pub fn is_over(&self, date: Micros) -> bool
        ensures { result ≡ is_past_floor self.now.floor date }
    {
        self.floor.is_some_and(|floor| date < floor)
    }

    /// A visit joins the others.
    pub fn add(&mut self, found: FoundVisit<'a>) -> Result<(), NoMemory>
        requires { is_past_floor self.old.floor found.date ≡ false }
        ensures { OnOk result ((most : ℕ) (visits : List Seen) → Keeps most self.old visits
            → Keeps most self.new (visits ++ seen found.entry ∷ [])) }
    {
        self.found.push(found)?;
        if self.found.len() / 2 < self.most {
            return Ok(());
        }
        self.cut_off();
        Ok(())
    }

    // Those beyond the first go.
    fn cut_off(&mut self)
        requires { self.old.most ≤ length self.old.found.items }
        ensures { (most : ℕ) (visits : List Seen) → Keeps most self.old visits
            → Keeps most self.new visits }
    {
        cut(&mut self.found, self.most);
        self.floor = last_date(&self.found);
    }

    /// The first of them, in order.
    pub fn into_found(self) -> Vec<FoundVisit<'a>>
        ensures { (most : ℕ) (visits : List Seen) → Keeps most self.entry visits → AreApart visits
            → map seen result.items ≡ first_seen most visits }
    {
        let First {
            mut found,
            most,
            ..
        } = self;
        cut(&mut found, most);
        found
    }
}

// Those beyond the first go, and the first are in order.
fn cut(found: &mut Vec<FoundVisit<'_>>, most: usize)
    ensures { AreApart (map seen found.old.items)
        → map seen found.new.items ≡ first_seen most (map seen found.old.items) }
{
    found.sort_unstable_by(compare);
    found.truncate(most);
}

// The date of the last of them.
fn last_date(found: &[FoundVisit<'_>]) -> Option<Micros>
    ensures { result ≡ spec.last_date (map seen found.now) }
{
    let last = found.last()?;
    Some(last.date)
}

// How two visits stand: the later first, and those of one date by ascending id.
fn compare(a: &FoundVisit<'_>, b: &FoundVisit<'_>) -> Ordering
    ensures { result ≡ seen_cmp (seen a.now) (seen b.now) }
{
    b.date.cmp(&a.date).then(a.visit.cmp(&b.visit))
}
