// Two orders of the views, kept as the views change.
ghost use Rattle.std.specs.Prelude.{◌≡◌, ℤ, [], List, OnOk, reverse};
ghost use Rattle.std.specs.List.{filter};
ghost use Rattle.std.specs.Iterator.Adapters.{rev_source};
ghost use Rattle.std.specs.Map.Iter.{ShowsInOrder, ShowsInReverse, deref, deref_pair};
ghost use Rattle.std.specs.Option.{option_and_then, option_copied, option_map};
ghost use Rattle.pl_base.specs.declared.date.Micros.{Micros};
ghost use Rattle.pl_base.specs.declared.id.PageId.{PageId};
ghost use Rattle.pl_base.specs.declared.view.View.{View};
ghost use Rattle.pl_base.specs.Sorting.{sorted_by};
ghost use Rattle.pl_sketch.specs.declared.sketch.Sketch.{Sketch};
ghost use Rattle.pl_follow.specs.Order.{Gains, Loses, Orders, Replaces, entries_of, frecency_ranks};
ghost use Rattle.pl_follow.specs.Order.{is_above, is_ahead, is_below, is_later, leads, next_rank};
ghost use Rattle.pl_follow.specs.Order.{visit_rank_of, visit_ranks};

use crate::Follow;
use crate::entries::change_entry;
use pl_base::{Micros, NoMemory, PageId, View};
use pl_sketch::Sketch;
use std::alloc::Global;
use std::collections::{BTreeMap, BTreeSet, btree_map, btree_set};
use std::iter::Rev;
use std::ops::Bound;

/// The views of a store in two orders: by frecency, and by the date of their latest visit.
///
/// Each is walked from the greatest number on, and where the numbers are equal from the greatest
/// id on. Frecencies are in points, and dates in microseconds since 1970-01-01T00:00:00Z.
///
/// Beside each frecency stands the sketch of the page's folded texts, so that a walk passes by the
/// pages in which a word can't stand.
#[derive(Debug, Drop)]
pub struct OrderIndex {
    // The frecency of each view and its id. Maps and sets ascend, so they are walked from their
    // ends.
    frecencies: BTreeMap<(i64, PageId), Sketch>,
    // The date of the latest visit of each view that has one, and its id.
    visits: BTreeSet<(Micros, PageId)>,
}

impl OrderIndex {
    /// The orders of no views.
    pub fn new(alloc: Global) -> OrderIndex
        ensures { Orders result [] }
    {
        OrderIndex {
            frecencies: BTreeMap::new(alloc),
            visits: BTreeSet::new(alloc),
        }
    }

    /// The frecency and the id of the view next behind a place by frecency, or of the first of all
    /// where no place is given; `None` where no view is behind it. No view need stand at the place.
    ///
    /// Takes time in the logarithm of the number of views, and no memory.
    pub fn after(&self, place: Option<(i64, PageId)>) -> Option<(i64, PageId)>
        ensures { (views : List View) → Orders self.now views
            → result ≡ next_rank is_ahead place (frecency_ranks views) }
    {
        match place {
            Some(place) => {
                let (rank, _) = self.frecencies.range(..place).next_back()?;
                Some(*rank)
            }
            None => self.frecencies.keys().next_back().copied(),
        }
    }

    /// The date and the id of the view next behind a place by latest visit, or of the first of all
    /// where no place is given; `None` where no view with a visit is behind it.
    ///
    /// Takes time in the logarithm of the number of views, and no memory.
    pub fn visited_before(&self, place: Option<(Micros, PageId)>) -> Option<(Micros, PageId)>
        ensures { (views : List View) → Orders self.now views
            → result ≡ next_rank is_later place (visit_ranks views) }
    {
        next_below(&self.visits, place)
    }

    /// The frecencies and ids of all views, from the first by frecency to the last.
    pub fn by_frecency(&self) -> Rev<btree_map::Keys<'_, (i64, PageId), Sketch>>
        ensures order { (views : List View) → Orders self.now views
            → reverse (rev_source result) ≡ sorted_by is_ahead (frecency_ranks views) }
        ensures runs { ShowsInReverse (deref {X = ℤ × PageId}) }
    {
        self.frecencies.keys().rev()
    }

    /// The frecencies and ids of all views, from the last by frecency to the first.
    pub fn upward(&self) -> btree_map::Keys<'_, (i64, PageId), Sketch>
        ensures order { (views : List View) → Orders self.now views
            → result ≡ sorted_by (λ x y. is_ahead y x) (frecency_ranks views) }
        ensures runs { ShowsInOrder (deref {X = ℤ × PageId}) }
    {
        self.frecencies.keys()
    }

    /// The frecencies, ids and sketches of the views that come before a place by frecency, from the
    /// first of them to the last. No view need stand at the place.
    pub fn ahead(&self, place: (i64, PageId)) -> Rev<btree_map::Range<'_, (i64, PageId), Sketch>>
        ensures order { (views : List View) → Orders self.now views
            → reverse (rev_source result)
            ≡ filter (λ entry. is_ahead entry.0 place) (sorted_by leads (entries_of views)) }
        ensures runs { ShowsInReverse (deref_pair {K = ℤ × PageId} {X = Sketch}) }
    {
        let from = (Bound::Excluded(place), Bound::Unbounded);
        self.frecencies.range(from).rev()
    }

    /// The frecencies, ids and sketches of the views that come behind a place by frecency, from the
    /// first of them to the last. No view need stand at the place.
    pub fn behind(&self, place: (i64, PageId)) -> Rev<btree_map::Range<'_, (i64, PageId), Sketch>>
        ensures order { (views : List View) → Orders self.now views
            → reverse (rev_source result)
            ≡ filter (λ entry. is_ahead place entry.0) (sorted_by leads (entries_of views)) }
        ensures runs { ShowsInReverse (deref_pair {K = ℤ × PageId} {X = Sketch}) }
    {
        self.frecencies.range(..place).rev()
    }

    /// The dates and ids of the views that have a visit, from the latest visit to the earliest.
    pub fn by_visit(&self) -> Rev<btree_set::Iter<'_, (Micros, PageId)>>
        ensures order { (views : List View) → Orders self.now views
            → reverse (rev_source result) ≡ sorted_by is_later (visit_ranks views) }
        ensures runs { ShowsInReverse (deref {X = Micros × PageId}) }
    {
        self.visits.iter().rev()
    }
}

impl Follow for OrderIndex {
    ghost stands = { Orders };

    fn change(
        &mut self,
        alloc: Global,
        old: Option<&View>,
        new: Option<&View>,
    ) -> Result<(), NoMemory> {
        change_entry(alloc, &mut self.frecencies, old, new)?;
        replace_rank(&mut self.visits, rank_by_visit(old), rank_by_visit(new))
    }
}

// The date of the latest visit of a view, if it has one, and its id.
fn rank_by_visit(view: Option<&View>) -> Option<(Micros, PageId)>
    ensures { result ≡ option_and_then visit_rank_of (option_copied view.entry) }
{
    let view = view?;
    Some((view.last?, view.id))
}

/// One rank goes and another comes, as far as there are any; where the two are the same, nothing is
/// touched.
///
/// Takes time in the logarithm of the number of ranks, and memory where one comes.
pub fn replace_rank<K: Ord + Copy>(
    ranks: &mut BTreeSet<K>,
    leaving: Option<K>,
    coming: Option<K>,
) -> Result<(), NoMemory>
    ensures { OnOk result (Replaces K.cmp leaving coming ranks.old.keys ranks.new.keys) }
{
    if leaving == coming {
        return Ok(());
    }
    take_out(ranks, leaving);
    put_in(ranks, coming)
}

// A rank, if there is one, goes.
fn take_out<K: Ord + Copy>(ranks: &mut BTreeSet<K>, leaving: Option<K>)
    ensures { Loses K.cmp leaving ranks.old.keys ranks.new.keys }
{
    if let Some(leaving) = leaving {
        ranks.remove(&leaving);
    }
}

// A rank, if there is one, comes.
fn put_in<K: Ord + Copy>(ranks: &mut BTreeSet<K>, coming: Option<K>) -> Result<(), NoMemory>
    ensures { OnOk result (Gains K.cmp coming ranks.old.keys ranks.new.keys) }
{
    if let Some(coming) = coming {
        ranks.insert(coming)?;
    }
    Ok(())
}

// The greatest of the ranks below a place, or of all.
fn next_below<K: Ord + Copy>(ranks: &BTreeSet<K>, place: Option<K>) -> Option<K>
    ensures { (listed : List K) → ranks.now.keys ≡ sorted_by (is_below K.cmp) listed
        → result ≡ next_rank (is_above K.cmp) place listed }
{
    match place {
        Some(place) => ranks.range(..place).next_back().copied(),
        None => ranks.iter().next_back().copied(),
    }
}
