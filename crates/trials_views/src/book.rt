// A list of views that changes, and a follower that is told of each change.
ghost use Rattle.std.specs.Prelude.{◌≡◌, ◌<◌, ◌≤◌, ◌+◌, [], OnOk, drop, length, take, true};
ghost use Rattle.std.specs.List.{AllByRecursion};
ghost use Rattle.std.specs.Vec.{vec_len};
ghost use Rattle.pl_base.specs.declared.view.View.{View};
ghost use Rattle.pl_follow.specs.Urls.{IndexesUrls};
ghost use Rattle.trials_views.specs.Books.{IsBook, MayCome, MayTurn};

use crate::both::Both;
use crate::places::{has_prefix, is_before, is_behind, is_free, is_new, share};
use pl_base::{NoMemory, SLOT_LIMIT, View};
use pl_follow::{Follow, UrlIndex};
use std::alloc::Global;

// The positive frecencies of views are less together.
const SUM_LIMIT: u64 = 1 << 36;

/// Views in the order of their ids, each with a URL of its own, and what follows them.
///
/// A change that suits no list of views is not made, and the answer to it is `false`.
#[derive(Drop)]
pub struct Book<F> {
    pub views: Vec<View>,
    /// An index by URL, of which is asked whether a URL is new, and the follower.
    pub follows: Both<UrlIndex, F>,
    // The sum of the positive frecencies.
    pub sum: u64,
}

impl<F: Follow> Book<F> {
    /// No views, and a new follower.
    pub fn new(alloc: Global, follower: F) -> Book<F>
        requires { F.stands follower [] }
        ensures { IsBook F.stands result }
    {
        Book {
            views: Vec::new(alloc),
            follows: Both {
                one: UrlIndex::new(alloc),
                other: follower,
            },
            sum: 0,
        }
    }

    // Whether the view may come at a place.
    fn may_come(&self, place: usize, new: &View) -> bool
        requires book { IsBook F.stands self.now }
        requires place { place ≤ vec_len self.now.views }
        ensures { result ≡ true
            → MayCome new.now (take place self.now.views.items) (drop place self.now.views.items) }
    {
        if !is_behind(&self.views, place, new.id) || !is_before(&self.views, place, new.id) {
            return false;
        }
        if !is_new(&self.follows.one, &new.url) || !has_prefix(new) {
            return false;
        }
        self.views.len() < SLOT_LIMIT as usize - 1 && share(new) < SUM_LIMIT - self.sum
    }

    // Whether the view may come in place of another.
    fn may_turn(&self, place: usize, new: &View) -> bool
        requires book { IsBook F.stands self.now }
        requires place { place < vec_len self.now.views }
        ensures { result ≡ true → MayTurn new.now place self.now.views.items }
    {
        let old = &self.views[place];
        if !is_behind(&self.views, place, new.id) || !is_before(&self.views, place + 1, new.id) {
            return false;
        }
        if !is_free(&self.follows.one, old, &new.url) || !has_prefix(new) {
            return false;
        }
        share(new) < SUM_LIMIT - self.sum
    }

    /// A view comes.
    pub fn come(&mut self, alloc: Global, new: View) -> Result<bool, NoMemory>
        requires book { IsBook F.stands self.old }
        ensures { OnOk result (IsBook F.stands self.new) }
    {
        let place = self.views.partition_point(|view| view.id.0 < new.id.0);
        if !self.may_come(place, &new) {
            return Ok(false);
        }
        self.follows.change(alloc, None, Some(&new))?;
        self.sum += share(&new);
        self.views.insert(place, new)?;
        Ok(true)
    }

    /// The view at a place goes.
    pub fn go(&mut self, alloc: Global, place: usize) -> Result<bool, NoMemory>
        requires book { IsBook F.stands self.old }
        ensures { OnOk result (IsBook F.stands self.new) }
    {
        if place >= self.views.len() {
            return Ok(false);
        }
        let old = self.views.remove(place);
        self.follows.change(alloc, Some(&old), None)?;
        self.sum -= share(&old);
        Ok(true)
    }

    /// A view comes in place of another, under an id that keeps the order.
    pub fn turn(&mut self, alloc: Global, place: usize, new: View) -> Result<bool, NoMemory>
        requires book { IsBook F.stands self.old }
        ensures { OnOk result (IsBook F.stands self.new) }
    {
        if place >= self.views.len() || !self.may_turn(place, &new) {
            return Ok(false);
        }
        self.follows
            .change(alloc, Some(&self.views[place]), Some(&new))?;
        self.sum = self.sum - share(&self.views[place]) + share(&new);
        self.views[place] = new;
        Ok(true)
    }

    /// The same follower, made afresh from the list of views.
    pub fn afresh<G: Follow + Drop>(&self, alloc: Global, mut follower: G) -> Result<G, NoMemory>
        requires book { IsBook F.stands self.now }
        requires follower { G.stands follower [] }
    {
        for view in &self.views {
            follower.change(alloc, None, Some(view))?;
        }
        Ok(follower)
    }
}
