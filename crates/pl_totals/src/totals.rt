// The totals of origins and of groups of hosts, and the pages of origins.
ghost use Rattle.std.specs.Prelude.{◌≡◌, ◌^◌, ◌<◌, ◌&&◌, ◌==◌, [], ℕ, List, Some, true};
ghost use Rattle.std.specs.Prelude.{IfOk, OnOk, bytes_eq, length, if◌then◌else◌};
ghost use Rattle.std.specs.List.{slice_get};
ghost use Rattle.std.specs.Option.{option_map};
ghost use Rattle.std.specs.String.{string_bytes};
ghost use Rattle.pl_base.specs.declared.view.View.{View};
ghost use Rattle.pl_base.specs.Totals as spec;
ghost use Rattle.pl_base.specs.Totals.{group_passes, is_in_group, origins_with_total};
ghost use Rattle.pl_base.specs.Totals.{sum_of_totals, total_of};
ghost use Rattle.pl_base.specs.View.{scored_views};
ghost use Rattle.pl_follow.specs.Changes.{Suits, with_view, without_id};
ghost use Rattle.pl_totals.specs.Filling.{best_group};
ghost use Rattle.pl_totals.specs.Groups.{grouped, is_enough, or_better};
ghost use Rattle.pl_totals.specs.Standing.{HasRoom, MayCome, MayGo, MayTurn, Stands, StandsWith};
ghost use Rattle.pl_totals.specs.Standing.{Steps, Takes, kept_group, kept_total, pages_of, stepped};

use crate::groups::{Group, Groups, without_www};
use crate::kept::{Pages, Step};
use crate::origins::Origins;
use pl_base::{NoMemory, PageId, Txt, View};
use pl_follow::Follow;
use std::alloc::Global;

/// The totals of origins, which groups of hosts pass, and which pages an origin has, after
/// `moz_origins` of Mozilla Places and its threshold: the mean, plus 0 times the standard
/// deviation.
///
/// An origin is a prefix, such as `https://`, and a host with its port, both as they stand in a
/// URL; its total is the sum of the positive frecencies of its pages. A frecency of -1, where the
/// visits of a page add nothing, never counts.
///
/// A group of hosts has the origins whose hosts are equal without one leading `www.`, whatever
/// their prefixes; an origin without a host is in none. A group passes where its total is
/// positive and no less than the mean of the totals that are positive. A bookmark exempts no group
/// from it.
///
/// A change costs the logarithm of the prefixes and of the hosts, and of the pages of the origin
/// where the page comes or goes.
#[derive(Drop)]
pub struct Totals {
    origins: Origins,
    groups: Groups,
    // How many origins have a total.
    count: u32,
    sum: u64,
}

// What a frecency adds to the total of its origin.
fn share(frecency: i64) -> u64
    ensures share { result ≡ spec.share frecency }
    ensures fits { result < 2 ^ 63 }
{
    u64::try_from(frecency).unwrap_or(0)
}

// Whether the views are of the same page and the same origin.
fn are_of_one(old: &View, new: &View) -> bool
    ensures { result ≡ (old.now.id.0 == new.now.id.0 && (bytes_eq old.now.prefix new.now.prefix
        && bytes_eq old.now.host new.now.host)) }
{
    old.id == new.id
        && old.prefix.as_str() == new.prefix.as_str()
        && old.host.as_str() == new.host.as_str()
}

impl Follow for Totals {
    ghost stands = { λ totals views. Stands totals views };

    fn change(
        &mut self,
        alloc: Global,
        old: Option<&View>,
        new: Option<&View>,
    ) -> Result<(), NoMemory> {
        match (old, new) {
            (Some(old), Some(new)) => self.replace(alloc, old, new),
            (Some(old), None) => self.lose(alloc, old),
            (None, Some(new)) => self.gain(alloc, new),
            (None, None) => Ok(()),
        }
    }
}

impl Totals {
    /// The totals of no view.
    pub fn new(alloc: Global) -> Totals
        ensures { Stands result [] }
    {
        Totals {
            origins: Origins::new(alloc),
            groups: Groups::new(alloc),
            count: 0,
            sum: 0,
        }
    }

    // A page comes to the origin or goes, or its share changes.
    fn apply(&mut self, alloc: Global, prefix: &str, host: &str, step: Step) -> Result<(), NoMemory>
        requires room { HasRoom (prefix.now, host.now) step self.old }
        ensures steps { OnOk result (Steps (prefix.now, host.now) step self.old self.new) }
    {
        let was = self.origins.apply(alloc, prefix, host, step)?;
        let is = was - step.from + step.to;
        self.apply_to_group(alloc, host, step)?;
        self.count = self.count + u32::from(is > 0) - u32::from(was > 0);
        self.sum = self.sum - step.from + step.to;
        Ok(())
    }

    // The same for the group of a host, if it has one.
    fn apply_to_group(&mut self, alloc: Global, host: &str, step: Step) -> Result<(), NoMemory>
        requires room { (group : List ℕ) → is_in_group group ([], host.now) ≡ true
            → Takes step (kept_group self.old group) }
        ensures groups { OnOk result ((group : List ℕ) → kept_group self.new group
            ≡ (if is_in_group group ([], host.now)
            then stepped step (kept_group self.old group) else kept_group self.old group)) }
        ensures others { OnOk result (self.new ≡ record self.old { groups = self.new.groups }) }
    {
        if host.is_empty() {
            return Ok(());
        }
        self.groups.apply(alloc, without_www(host), step)
    }

    // A view goes.
    fn lose(&mut self, alloc: Global, view: &View) -> Result<(), NoMemory>
        requires may { StandsWith self.old (MayGo view.now) }
        ensures stands { OnOk result ((views : List View) → Stands self.old views
            → MayGo view.now views → Stands self.new (without_id view.now.id views)) }
    {
        let step = Step {
            pages: Pages::Goes(view.id),
            from: share(view.frecency),
            to: 0,
        };
        self.apply(alloc, view.prefix.as_str(), view.host.as_str(), step)
    }

    // A view comes.
    fn gain(&mut self, alloc: Global, view: &View) -> Result<(), NoMemory>
        requires may { StandsWith self.old (MayCome view.now) }
        ensures stands { OnOk result ((views : List View) → Stands self.old views
            → MayCome view.now views → Stands self.new (with_view view.now views)) }
    {
        let step = Step {
            pages: Pages::Comes(view.id),
            from: 0,
            to: share(view.frecency),
        };
        self.apply(alloc, view.prefix.as_str(), view.host.as_str(), step)
    }

    // A view of the same page and origin comes in place of another.
    fn turn(&mut self, alloc: Global, old: &View, new: &View) -> Result<(), NoMemory>
        requires may { StandsWith self.old (MayTurn old.now new.now) }
        ensures stands { OnOk result ((views : List View) → Stands self.old views
            → MayTurn old.now new.now views
            → Stands self.new (with_view new.now (without_id old.now.id views))) }
    {
        let step = Step {
            pages: Pages::Stay,
            from: share(old.frecency),
            to: share(new.frecency),
        };
        if step.from == step.to {
            return Ok(());
        }
        self.apply(alloc, new.prefix.as_str(), new.host.as_str(), step)
    }

    // A view comes in place of another.
    fn replace(&mut self, alloc: Global, old: &View, new: &View) -> Result<(), NoMemory>
        requires may { StandsWith self.old (Suits (Some old.now) (Some new.now)) }
        ensures stands { OnOk result ((views : List View) → Stands self.old views
            → Suits (Some old.now) (Some new.now) views
            → Stands self.new (with_view new.now (without_id old.now.id views))) }
    {
        if are_of_one(old, new) {
            return self.turn(alloc, old, new);
        }
        self.lose(alloc, old)?;
        self.gain(alloc, new)
    }

    /// The total of the origin with this prefix and host, in points of frecency; 0 where no page
    /// with a positive frecency has it.
    pub fn total(&self, prefix: &str, host: &str) -> u64
        ensures { (views : List View) → Stands self.now views
            → result ≡ total_of (scored_views views) (prefix.now, host.now) }
    {
        match self.origins.at(prefix, host) {
            Some(kept) => kept.total,
            None => 0,
        }
    }

    /// How many pages have the origin with this prefix and host.
    pub fn pages(&self, prefix: &str, host: &str) -> usize
        ensures { (views : List View) → Stands self.now views
            → result ≡ length (pages_of (prefix.now, host.now) views) }
    {
        match self.origins.at(prefix, host) {
            Some(kept) => kept.pages.len(),
            None => 0,
        }
    }

    /// The page with the smallest id that has the origin with this prefix and host, if any has.
    pub fn first_page(&self, prefix: &str, host: &str) -> Option<PageId>
        ensures { (views : List View) → Stands self.now views
            → result ≡ slice_get (pages_of (prefix.now, host.now) views) 0 }
    {
        self.origins.at(prefix, host)?.pages.first().copied()
    }

    // Whether a group with this total passes.
    fn is_enough(&self, total: u64) -> bool
        ensures { result ≡ is_enough self.now total }
    {
        total > 0 && u128::from(total) * u128::from(self.count) >= u128::from(self.sum)
    }

    /// Whether the group with this name passes: a host without one leading `www.`, as
    /// `example.org` or `example.org:8080`. The host `www.` makes the group with the empty name.
    pub fn passes(&self, group: &str) -> bool
        ensures { (views : List View) → Stands self.now views
            → result ≡ group_passes (scored_views views) group.now }
    {
        self.is_enough(self.groups.total(group))
    }

    /// How many origins have a positive total, and the sum of these totals.
    pub fn sums(&self) -> (u32, u64)
        ensures count { (views : List View) → Stands self.now views
            → result.0 ≡ origins_with_total (scored_views views) }
        ensures sum { (views : List View) → Stands self.now views
            → result.1 ≡ sum_of_totals (scored_views views) }
    {
        (self.count, self.sum)
    }

    // The group, or the best so far, where the group does not pass or is not ahead of that.
    fn or_better<'a>(&self, best: Option<Group<'a>>, group: Group<'a>) -> Option<Group<'a>>
        ensures { option_map grouped result
            ≡ or_better (is_enough self.now) (grouped group.entry) (option_map grouped best.entry) }
    {
        if self.is_enough(group.total) {
            Some(group.or_best(best))
        } else {
            best
        }
    }

    // The best of the groups that pass and whose names begin with the text: these stand together,
    // from the text on.
    fn best_group(&self, text: &String) -> Option<Group<'_>>
        ensures { (views : List View) → Stands self.now views
            → option_map grouped result
            ≡ best_group (scored_views views) (string_bytes text.now) }
    {
        let mut best: Option<Group> = None;
        for (name, total) in self.groups.totals.range(text..) {
            let group = Group {
                name: name.as_str(),
                total: *total,
            };
            if !group.name.starts_with(text.as_str()) {
                break;
            }
            best = self.or_better(best, group);
        }
        best
    }

    /// Of the groups that pass and whose names begin with this text the one with the greatest
    /// total, and that total. Of several with the same total it is the one whose name is first,
    /// byte by byte.
    ///
    /// Walks the groups whose names begin with the text, and no others.
    pub fn best(&self, alloc: Global, text: &str) -> Result<Option<(Txt, u64)>, NoMemory>
        ensures { IfOk result (λ best. (views : List View) → Stands self.now views
            → best ≡ best_group (scored_views views) text.now) }
    {
        // A range of names begins at a `String`.
        let text = String::from_str(alloc, text)?;
        match self.best_group(&text) {
            Some(group) => Ok(Some((Txt::copied(alloc, group.name)?, group.total))),
            None => Ok(None),
        }
    }
}
