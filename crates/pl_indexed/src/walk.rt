// The orders of views that are kept, and the walks along them.
ghost use Rattle.std.specs.Prelude.{◌≡◌, List, true, IfSome};
ghost use Rattle.std.specs.Option.{option_and_then, option_copied, option_map};
ghost use Rattle.pl_base.specs.declared.id.PageId.{PageId};
ghost use Rattle.pl_base.specs.declared.view.View.{View};
ghost use Rattle.pl_follow.specs.Changes.{AreInOrder};
ghost use Rattle.pl_follow.specs.Order.{Orders, frecency_ranks, is_ahead, next_rank, rank_of};
ghost use Rattle.pl_follow.specs.Order.{visit_rank_of};
ghost use Rattle.pl_known.specs.Known.{AreFollowed};
ghost use Rattle.pl_indexed.specs.Found.{view_before};
ghost use Rattle.pl_indexed.specs.Walk.{next_in, sort_of, stands_in};

use pl_base::{Micros, PageId, View};
use pl_follow::OrderIndex;
use pl_known::Known;
use pl_place::{Direction, Sort, SortKey};

/// An order of views that is kept.
#[derive(Clone, Copy)]
pub enum KeptOrder {
    /// From the greatest frecency on, and within one frecency from the greatest id on.
    FrecencyFalling,
    /// From the least frecency on, and within one frecency from the least id on.
    FrecencyRising,
    /// From the latest visit on, and within one date from the greatest id on: those with a visit.
    LatestFirst,
}

/// The kept order that serves a sort: what the sort puts first comes first in it, but for pages
/// that are alike.
pub fn kept_order(sort: Sort) -> Option<KeptOrder>
    ensures { IfSome result (λ order. sort ≡ sort_of order) }
{
    match sort {
        Sort::By(SortKey::Frecency, Direction::Descending) => Some(KeptOrder::FrecencyFalling),
        Sort::By(SortKey::Frecency, Direction::Ascending) => Some(KeptOrder::FrecencyRising),
        Sort::By(SortKey::Date, Direction::Descending) => Some(KeptOrder::LatestFirst),
        _ => None,
    }
}

// The frecency of a view and its id.
fn place_by_frecency(view: Option<&View>) -> Option<(i64, PageId)>
    ensures { result ≡ option_map rank_of (option_copied view.entry) }
{
    let view = view?;
    Some((view.frecency, view.id))
}

// The date of the latest visit of a view, if it has one, and its id.
fn place_by_visit(view: Option<&View>) -> Option<(Micros, PageId)>
    ensures { result ≡ option_and_then visit_rank_of (option_copied view.entry) }
{
    let view = view?;
    Some((view.last?, view.id))
}

// The frecency and the id of the view next ahead of a place by frecency, or of the last of all
// where no place is given.
fn next_ahead(kept: &OrderIndex, place: Option<(i64, PageId)>) -> Option<(i64, PageId)>
    ensures { (views : List View) → AreInOrder views → Orders kept.now views
        → result ≡ next_rank (λ x y. is_ahead y x) place (frecency_ranks views) }
{
    match place {
        Some(place) => {
            let (rank, _) = kept.ahead(place).next_back()?;
            Some(*rank)
        }
        None => kept.upward().next().copied(),
    }
}

// The page of a rank.
fn page_of<K: Copy>(rank: Option<(K, PageId)>) -> Option<PageId>
    ensures { result ≡ option_map (λ (r : K × PageId). r.1) rank }
{
    let (_, page) = rank?;
    Some(page)
}

// The id of the view next behind one in an order, or of the first of all.
fn next_page(kept: &OrderIndex, order: KeptOrder, behind: Option<&View>) -> Option<PageId>
    requires { IfSome (option_copied behind) (λ view. stands_in order view ≡ true) }
    ensures { (views : List View) → AreInOrder views → Orders kept.now views
        → result
        ≡ option_map (λ (v : View). v.id) (next_in order (option_copied behind.entry) views) }
{
    match order {
        KeptOrder::FrecencyFalling => page_of(kept.after(place_by_frecency(behind))),
        KeptOrder::FrecencyRising => page_of(next_ahead(kept, place_by_frecency(behind))),
        KeptOrder::LatestFirst => page_of(kept.visited_before(place_by_visit(behind))),
    }
}

/// The view next behind one in an order, or the first of all.
///
/// Takes time in the logarithm of the number of views, and no memory.
pub fn next_view<'a>(known: &'a Known, order: KeptOrder, behind: Option<&View>) -> Option<&'a View>
    requires followed { AreFollowed known.now }
    requires stands { IfSome (option_copied behind) (λ view. stands_in order view ≡ true) }
    ensures { option_copied result
        ≡ next_in order (option_copied behind.entry) known.now.views.items }
{
    let page = next_page(&known.order, order, behind)?;
    known.view(page)
}

/// Whether a view comes before another by the sort that an order serves.
pub fn comes_before(order: KeptOrder, view: &View, other: &View) -> bool
    ensures { result ≡ view_before (sort_of order) view.now other.now }
{
    let by_key = match order {
        KeptOrder::FrecencyFalling => other.frecency.cmp(&view.frecency),
        KeptOrder::FrecencyRising => view.frecency.cmp(&other.frecency),
        KeptOrder::LatestFirst => other.last.cmp(&view.last),
    };
    by_key.then(view.id.cmp(&other.id)).is_lt()
}
