// Bookmarks that are found, and their order.
ghost use Rattle.std.specs.Prelude.{◌≡◌, ◌≢◌, Some, map, true, IfOk};
ghost use Rattle.std.specs.List.{AllPairs};
ghost use Rattle.std.specs.List.Sorted.{IsPermutation};
ghost use Rattle.pl_base.specs.Fold.{folded};
ghost use Rattle.pl_base.specs.Sorting.{sorted_by};
ghost use Rattle.pl_base.specs.Store.{Item};
ghost use Rattle.pl_base.specs.Tree.{has_item, item_at};
ghost use Rattle.pl_known.specs.Known.{AreFollowed, view_of};
ghost use Rattle.pl_query.specs.Candidates.{candidate_cmp, goes_before};
ghost use Rattle.pl_marked.specs.declared.found.Found.{Found};
ghost use Rattle.pl_marked.specs.declared.found.Key.TheVariants.{Text};
ghost use Rattle.pl_marked.specs.Found as spec;
ghost use Rattle.pl_marked.specs.Found.{found_candidate};

use crate::items::item_row;
use pl_base::{ItemId, Micros, NoMemory, Rows, Steps, Txt, View};
use pl_known::Known;
use pl_place::{Direction, Sort, SortKey};
use pl_words::fold;
use std::alloc::Global;
use std::cmp::Ordering;
use std::sync::ledger::Ledger;

/// What a bookmark is sorted by. The keys of one sort are of one kind.
#[derive(PartialEq, Eq, PartialOrd, Ord, Drop)]
pub enum Key {
    Nothing,
    Text(Txt),
    Moment(Option<Micros>),
    Number(u64),
    Score(i64),
}

/// A bookmark that is found, the view of its page, and what it is sorted by.
#[derive(Drop)]
pub struct Found<'a> {
    pub view: &'a View,
    pub item: ItemId,
    pub key: Key,
}

// The fold of the bookmark's title.
fn title_key<R: Rows, L: Ledger>(
    alloc: Global,
    rows: &R,
    item: ItemId,
    steps: &mut Steps<L>,
) -> Result<Key, NoMemory>
    requires item { has_item (R.kept rows.now).items item ≡ true }
    ensures { IfOk result (λ key. (i : Item) → item_at (R.kept rows.now).items item ≡ Some i
        → key ≡ Text (folded i.title)) }
{
    let title = rows.item_title(item, steps)?;
    Ok(Key::Text(fold(alloc, title.as_str())?))
}

// The fold of the page's tags.
fn tags_key(alloc: Global, known: &Known, view: &View) -> Result<Key, NoMemory>
    requires followed { AreFollowed known.now }
    requires view { view_of view.now.id known.now.views.items ≡ Some view.now }
    ensures { IfOk result (λ key. key ≡ Text (folded view.now.tags)) }
{
    let texts = known.texts.of(view.id).unwrap();
    Ok(Key::Text(Txt::copied(alloc, texts.tags.as_str())?))
}

// The value of a bookmark by a key.
fn key_value<R: Rows, L: Ledger>(
    alloc: Global,
    rows: &R,
    known: &Known,
    key: SortKey,
    view: &View,
    item: ItemId,
    steps: &mut Steps<L>,
) -> Result<Key, NoMemory>
    requires item { has_item (R.kept rows.now).items item ≡ true }
    requires followed { AreFollowed known.now }
    requires view { view_of view.now.id known.now.views.items ≡ Some view.now }
    ensures { IfOk result (λ value. (i : Item) → item_at (R.kept rows.now).items item ≡ Some i
        → value ≡ spec.key_value key view.now i) }
{
    match key {
        SortKey::Title => title_key(alloc, rows, item, steps),
        SortKey::Date => Ok(Key::Moment(view.last)),
        SortKey::Url => Ok(Key::Text(Txt::copied(alloc, view.url.as_str())?)),
        SortKey::VisitCount => Ok(Key::Number(u64::from(view.count))),
        SortKey::Added => Ok(Key::Number(item_row(rows, item, steps).added.0)),
        SortKey::Modified => Ok(Key::Number(item_row(rows, item, steps).modified.0)),
        SortKey::Tags => tags_key(alloc, known, view),
        SortKey::Frecency => Ok(Key::Score(view.frecency)),
    }
}

/// What a bookmark is sorted by, of whose page the view is one of those that are known.
pub fn key_of<R: Rows, L: Ledger>(
    alloc: Global,
    rows: &R,
    known: &Known,
    sort: Sort,
    view: &View,
    item: ItemId,
    steps: &mut Steps<L>,
) -> Result<Key, NoMemory>
    requires item { has_item (R.kept rows.now).items item ≡ true }
    requires followed { AreFollowed known.now }
    requires view { view_of view.now.id known.now.views.items ≡ Some view.now }
    ensures { IfOk result (λ key. (i : Item) → item_at (R.kept rows.now).items item ≡ Some i
        → key ≡ spec.key_of sort view.now i) }
{
    match sort {
        Sort::Unsorted => Ok(Key::Nothing),
        Sort::By(key, _) => key_value(alloc, rows, known, key, view, item, steps),
    }
}

// How two bookmarks stand: by their keys in the direction, and by ascending id where these are
// alike.
fn compare(sort: Sort, a: &Found<'_>, b: &Found<'_>) -> Ordering
    ensures { result ≡ candidate_cmp sort (found_candidate a.now) (found_candidate b.now) }
{
    let by_key = a.key.cmp(&b.key);
    let by_id = a.item.cmp(&b.item);
    match sort {
        Sort::By(_, Direction::Descending) => by_key.reverse().then(by_id),
        Sort::By(_, Direction::Ascending) => by_key.then(by_id),
        Sort::Unsorted => by_key.then(by_id),
    }
}

/// The bookmarks stand in the order from then on.
pub fn put_in_order(found: &mut Vec<Found<'_>>, sort: Sort)
    requires { AllPairs (λ (a b : Found). a.item.0 ≢ b.item.0) found.old.items }
    ensures order { map found_candidate found.new.items
        ≡ sorted_by (goes_before sort) (map found_candidate found.old.items) }
    ensures moves { IsPermutation found.old.items found.new.items }
{
    found.sort_unstable_by(|a, b| compare(sort, a, b));
}
