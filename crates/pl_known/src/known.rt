// The views of a store and their followers.
ghost use Rattle.std.specs.Prelude.{◌≡◌, IfOk, List, OnOk, bytes_eq};
ghost use Rattle.std.specs.List.{find};
ghost use Rattle.std.specs.Option.{option_copied};
ghost use Rattle.pl_base.specs.declared.view.View.{View};
ghost use Rattle.pl_follow.specs.Changes.{AreInOrder, FitStore, IsChange, Suits, changed};
ghost use Rattle.pl_known.specs.Changes.{AllSuit, AreEachOnce, after};
ghost use Rattle.pl_known.specs.Known.{AreFollowed, FollowersStand, view_of};

use crate::told::told;
use crate::views::{drop_views, find_view, put_views};
use pl_base::{Change, Day, NoMemory, PageId, View};
use pl_calendar::Calendar;
use pl_follow::{FoldedTexts, Follow, OrderIndex, UrlIndex};
use pl_totals::Totals;
use std::alloc::Global;

/// What is known of the pages of a store.
#[derive(Drop)]
pub struct Known {
    /// The view of each page, by ascending id.
    pub views: Vec<View>,
    pub urls: UrlIndex,
    pub order: OrderIndex,
    pub texts: FoldedTexts,
    pub calendar: Calendar,
    pub totals: Totals,
}

impl Known {
    /// Of these views, on the store's day.
    pub fn of(alloc: Global, day: Day, views: Vec<View>) -> Result<Known, NoMemory>
        requires order { AreInOrder views.items }
        requires fit { FitStore views.items }
        ensures views { IfOk result (λ known. known.views.items ≡ views.items) }
        ensures followed { IfOk result AreFollowed }
    {
        let urls = told(alloc, UrlIndex::new(alloc), &views)?;
        let order = told(alloc, OrderIndex::new(alloc), &views)?;
        let texts = told(alloc, FoldedTexts::new(alloc), &views)?;
        let calendar = told(alloc, Calendar::new(alloc, day), &views)?;
        let totals = told(alloc, Totals::new(alloc), &views)?;
        Ok(Known {
            views,
            urls,
            order,
            texts,
            calendar,
            totals,
        })
    }

    // Each follower is told of a change.
    fn tell(
        &mut self,
        alloc: Global,
        old: Option<&View>,
        new: Option<&View>,
    ) -> Result<(), NoMemory>
        requires change { IsChange (FollowersStand self.old)
            (option_copied old) (option_copied new) }
        ensures views { OnOk result (self.new.views ≡ self.old.views) }
        ensures follows { OnOk result ((views : List View) → FollowersStand self.old views
            → Suits (option_copied old.entry) (option_copied new.entry) views
            → FollowersStand self.new
            (changed (option_copied old.entry) (option_copied new.entry) views)) }
    {
        self.urls.change(alloc, old, new)?;
        self.order.change(alloc, old, new)?;
        self.texts.change(alloc, old, new)?;
        self.calendar.change(alloc, old, new)?;
        self.totals.change(alloc, old, new)
    }

    // Each follower is told of all changes, one after another.
    fn tell_all(&mut self, alloc: Global, changes: &[Change]) -> Result<(), NoMemory>
        requires followed { AreFollowed self.old }
        requires suit { AllSuit changes.now self.old.views.items }
        ensures views { OnOk result (self.new.views ≡ self.old.views) }
        ensures follows { OnOk result
            (FollowersStand self.new (after changes.now self.old.views.items)) }
    {
        for change in changes {
            self.tell(alloc, change.old.as_ref(), change.new.as_ref())?;
        }
        Ok(())
    }

    /// The view of the page with the URL; none where no page has it.
    pub fn find(&self, url: &str) -> Option<&View>
        requires { AreFollowed self.now }
        ensures { option_copied result
            ≡ find (λ (v : View). bytes_eq v.url url.now) self.now.views.items }
    {
        self.view(self.urls.find(url)?)
    }

    /// The views and what follows them, after these changes.
    ///
    /// Where pages go, the views are gone over once for all of them.
    pub fn follow(&mut self, alloc: Global, changes: &[Change]) -> Result<(), NoMemory>
        requires followed { AreFollowed self.old }
        requires each_once { AreEachOnce changes.now }
        requires suit { AllSuit changes.now self.old.views.items }
        ensures views { OnOk result (self.new.views.items
            ≡ after changes.now self.old.views.items) }
        ensures followed { OnOk result (AreFollowed self.new) }
    {
        self.tell_all(alloc, changes)?;
        drop_views(&mut self.views, changes);
        put_views(alloc, &mut self.views, changes)
    }

    /// The view of the page with this id.
    pub fn view(&self, id: PageId) -> Option<&View>
        requires { AreFollowed self.now }
        ensures { option_copied result ≡ view_of id self.now.views.items }
    {
        find_view(&self.views, id)
    }
}
