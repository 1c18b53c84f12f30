// The pages that the address bar offers.
ghost use Rattle.std.specs.Prelude.{◌≡◌, ◌++◌, ◌∷◌, ◌≤◌, ◌+◌, ◌-◌, ℤ, [], List, map, nat_le, true};
ghost use Rattle.std.specs.Prelude.{IfOk, OnOk, length, reverse};
ghost use Rattle.std.specs.Iterator.Adapters.{rev_source};
ghost use Rattle.std.specs.List.{All, filter, sum_by};
ghost use Rattle.pl_base.specs.declared.id.PageId.{PageId};
ghost use Rattle.pl_base.specs.Rows.{IsRight, store_of};
ghost use Rattle.pl_base.specs.Store.{Page};
ghost use Rattle.pl_words.specs.declared.stands.Standing.{Standing};
ghost use Rattle.pl_bar.specs.AddressBar.{offered};
ghost use Rattle.pl_bar.specs.Cost.{FillsFirst, offering_cost, page_cost};
ghost use Rattle.pl_bar.specs.Followers.{AreFollowing, HaveTexts};
ghost use Rattle.pl_bar.specs.Offers.{GoOn, filled_up, has_counted, ids_of, in_first, is_boundary};
ghost use Rattle.pl_bar.specs.Offers.{is_inside, up_to};
ghost use Rattle.pl_bar.specs.Sketches.{AreSketched};

use crate::asked::Asked;
use crate::tiers::tier;
use pl_base::{NoMemory, PageId, Rows, Steps};
use pl_follow::{FoldedTexts, OrderIndex};
use pl_sketch::Sketch;
use pl_words::{Standing, fold, tokens};
use std::alloc::Global;
use std::collections::btree_map;
use std::iter::Rev;
use std::sync::ledger::Ledger;

// The pages that are offered, as far as they are found, in their order.
#[derive(Drop)]
struct Offers {
    // Those of the first tier.
    first: Vec<PageId>,
    // Those of the second, which are offered behind them.
    second: Vec<PageId>,
    // Each list has so many at the most.
    max: usize,
}

impl Offers {
    fn new(alloc: Global, max: u32) -> Offers
        ensures first { result.first.items ≡ [] }
        ensures second { result.second.items ≡ [] }
        ensures max { result.max ≡ max }
    {
        Offers {
            first: Vec::new(alloc),
            second: Vec::new(alloc),
            max: max as usize,
        }
    }

    // Whether no further page is offered.
    fn is_full(&self) -> bool
        ensures { result ≡ nat_le self.now.max (length self.now.first.items) }
    {
        self.first.len() >= self.max
    }

    // A page joins the list of its tier, the second one where there is room.
    fn add(&mut self, page: PageId, tier: Standing) -> Result<(), NoMemory>
        ensures max { OnOk result (self.new.max ≡ self.old.max) }
        ensures first { OnOk result (self.new.first.items
            ≡ self.old.first.items ++ filter (λ _. is_boundary tier) (page ∷ [])) }
        ensures second { OnOk result (self.new.second.items ≡ filled_up self.old.max
            self.old.second.items (filter (λ _. is_inside tier) (page ∷ []))) }
    {
        match tier {
            Standing::Boundary => self.first.push(page)?,
            Standing::Inside if self.second.len() < self.max => self.second.push(page)?,
            Standing::Inside | Standing::Nowhere => {}
        }
        Ok(())
    }

    // The pages of these entries by frecency are gone through until no further one is offered.
    fn go_on<R: Rows, L: Ledger>(
        &mut self,
        rows: &R,
        texts: &FoldedTexts,
        asked: &Asked,
        entries: Rev<btree_map::Range<'_, (i64, PageId), Sketch>>,
        steps: &mut Steps<L>,
    ) -> Result<(), NoMemory>
        requires right { IsRight (R.kept rows.now) }
        requires texts { HaveTexts (store_of (R.kept rows.now)) texts.now }
        requires counted { All (λ (id : PageId). has_counted (store_of (R.kept rows.now)) id ≡ true)
            (ids_of (rev_source entries)) }
        requires sketched { AreSketched texts.now (reverse (rev_source entries)) }
        ensures goes_on { OnOk result (GoOn (store_of (R.kept rows.now)) asked.now.text
            (ids_of (rev_source entries.entry)) self.old self.new) }
        ensures cost { OnOk result (steps.new ≤ steps.old
            + sum_by (page_cost (store_of (R.kept rows.now)))
            (up_to (in_first (store_of (R.kept rows.now)) asked.now.text)
            (self.old.max - length self.old.first.items) (ids_of (rev_source entries.entry)))) }
    {
        for (rank, sketch) in entries {
            if self.is_full() {
                return Ok(());
            }
            let page = rank.1;
            let tier = tier(rows, texts, page, *sketch, asked, steps);
            self.add(page, tier)?;
        }
        Ok(())
    }

    // The first list, and behind it as many of the second as there is room for.
    fn joined(self) -> Result<Vec<PageId>, NoMemory>
        ensures { IfOk result (λ pages.
            pages.items ≡ filled_up self.max self.first.items self.second.items) }
    {
        let Offers {
            mut first,
            mut second,
            max,
        } = self;
        second.truncate(max.saturating_sub(first.len()));
        first.append(&mut second)?;
        Ok(first)
    }
}

/// The pages that are offered for a text, `max` at the most. The text is cut at white space into
/// marks, `^ * + # $`, and words. Pages whose every word begins at the front of a text or behind a
/// byte that is no ASCII letter come first, the others behind them, each by frecency and then id,
/// the greatest first.
///
/// The pages are gone through in that order, those of frecency 0 left out, until there are `max` of
/// the first kind. No text is read or folded for a page, and those of a page whose sketch lacks a
/// place of a word's are not searched.
pub fn answer<R: Rows, L: Ledger>(
    alloc: Global,
    rows: &R,
    order: &OrderIndex,
    texts: &FoldedTexts,
    text: &str,
    max: u32,
    steps: &mut Steps<L>,
) -> Result<Vec<PageId>, NoMemory>
    requires right { IsRight (R.kept rows.now) }
    requires following { AreFollowing (store_of (R.kept rows.now)) order.now texts.now }
    ensures offered { IfOk result (λ pages. pages.items
        ≡ map (λ (p : Page). p.id) (offered (store_of (R.kept rows.now)) text.now max)) }
    ensures cost { OnOk result (FillsFirst (store_of (R.kept rows.now)) text.now max
        → steps.new ≤ steps.old + offering_cost (store_of (R.kept rows.now)) text.now max) }
{
    let folded = fold(alloc, text)?;
    let asked = Asked::of(tokens(alloc, &folded)?);
    let mut offers = Offers::new(alloc, max);

    // Ids are at least 1, so that these are all pages of positive frecency, and all of -1.
    let positive = order.ahead((1, PageId(0)));
    offers.go_on(rows, texts, &asked, positive, steps)?;
    let negative = order.behind((0, PageId(0)));
    offers.go_on(rows, texts, &asked, negative, steps)?;
    offers.joined()
}
