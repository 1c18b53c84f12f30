// Pages that are found, and their order.
ghost use Rattle.std.specs.Prelude.{◌≡◌, ◌≢◌, List, Some, IfOk};
ghost use Rattle.std.specs.List.{AllPairs};
ghost use Rattle.pl_base.specs.declared.view.View.{View};
ghost use Rattle.pl_base.specs.Fold.{folded};
ghost use Rattle.pl_base.specs.Sorting.{sorted_by};
ghost use Rattle.pl_known.specs.Known.{AreFollowed, view_of};
ghost use Rattle.pl_indexed.specs.declared.found.Found.{Found};
ghost use Rattle.pl_indexed.specs.declared.found.Key.TheVariants.{Text};
ghost use Rattle.pl_indexed.specs.Found as spec;
ghost use Rattle.pl_indexed.specs.Found.{AreFound, directed_cmp, place_cmp, place_found};
ghost use Rattle.pl_indexed.specs.Found.{view_before};

use crate::asked::{folded_title, texts_of};
use pl_base::{Micros, NoMemory, Txt, View};
use pl_known::Known;
use pl_place::{Direction, Sort, SortKey};
use std::alloc::Global;
use std::cmp::Ordering;

/// What a page is sorted by. The keys of one sort are of one kind.
#[derive(PartialEq, Eq, PartialOrd, Ord, Drop)]
pub enum Key {
    Nothing,
    Text(Txt),
    Moment(Option<Micros>),
    Number(i64),
}

/// A page that is found, and what it is sorted by.
#[derive(Drop)]
pub struct Found<'a> {
    pub view: &'a View,
    pub key: Key,
}

// The fold of the page's title.
fn title_key(alloc: Global, known: &Known, view: &View) -> Result<Key, NoMemory>
    requires followed { AreFollowed known.now }
    requires view { view_of view.now.id known.now.views.items ≡ Some view.now }
    ensures { IfOk result (λ key. key ≡ Text (folded view.now.title)) }
{
    let title = folded_title(alloc, view, texts_of(known, view))?;
    Ok(Key::Text(title))
}

// The fold of the page's tags.
fn tags_key(alloc: Global, known: &Known, view: &View) -> Result<Key, NoMemory>
    requires followed { AreFollowed known.now }
    requires view { view_of view.now.id known.now.views.items ≡ Some view.now }
    ensures { IfOk result (λ key. key ≡ Text (folded view.now.tags)) }
{
    let tags = Txt::copied(alloc, texts_of(known, view).tags.as_str())?;
    Ok(Key::Text(tags))
}

// The value of a page by a key. No view has the dates of bookmarks.
fn key_value(alloc: Global, known: &Known, key: SortKey, view: &View) -> Result<Key, NoMemory>
    requires followed { AreFollowed known.now }
    requires view { view_of view.now.id known.now.views.items ≡ Some view.now }
    ensures { IfOk result (λ value. value ≡ spec.key_value key view.now) }
{
    match key {
        SortKey::Title => title_key(alloc, known, view),
        SortKey::Date => Ok(Key::Moment(view.last)),
        SortKey::Url => Ok(Key::Text(Txt::copied(alloc, view.url.as_str())?)),
        SortKey::VisitCount => Ok(Key::Number(i64::from(view.count))),
        SortKey::Tags => tags_key(alloc, known, view),
        SortKey::Frecency => Ok(Key::Number(view.frecency)),
        SortKey::Added => Ok(Key::Nothing),
        SortKey::Modified => Ok(Key::Nothing),
    }
}

/// What a page is sorted by, whose view is one of those that are known.
pub fn key_of(alloc: Global, known: &Known, sort: Sort, view: &View) -> Result<Key, NoMemory>
    requires followed { AreFollowed known.now }
    requires view { view_of view.now.id known.now.views.items ≡ Some view.now }
    ensures { IfOk result (λ key. key ≡ spec.key_of sort view.now) }
{
    match sort {
        Sort::Unsorted => Ok(Key::Nothing),
        Sort::By(key, _) => key_value(alloc, known, key, view),
    }
}

// How two pages stand by their keys in the direction.
fn compare_keys(sort: Sort, a: &Found<'_>, b: &Found<'_>) -> Ordering
    ensures { result ≡ directed_cmp sort a.now.key b.now.key }
{
    match sort {
        Sort::By(_, Direction::Descending) => b.key.cmp(&a.key),
        Sort::By(_, Direction::Ascending) => a.key.cmp(&b.key),
        Sort::Unsorted => a.key.cmp(&b.key),
    }
}

// The same, and by ascending id where these are alike.
fn compare(sort: Sort, a: &Found<'_>, b: &Found<'_>) -> Ordering
    ensures { result ≡ place_cmp sort (place_found a.now) (place_found b.now) }
{
    match compare_keys(sort, a, b) {
        Ordering::Equal => a.view.id.cmp(&b.view.id),
        unequal => unequal,
    }
}

/// The pages stand in the order from then on.
///
/// Mostly pages come by ascending id, and many are alike. A stable sort by their keys, for which no
/// view is looked at, leaves them in order then, and the one behind it sees that they are.
pub fn put_in_order(found: &mut Vec<Found<'_>>, sort: Sort)
    requires { AllPairs (λ (a b : Found). a.view.now.id.0 ≢ b.view.now.id.0) found.old.items }
    ensures { (views : List View) → AreFound sort views found.old.items
        → AreFound sort (sorted_by (view_before sort) views) found.new.items }
{
    // Without memory for it they stay as they are.
    let _by_keys = found.sort_by(|a, b| compare_keys(sort, a, b));
    found.sort_unstable_by(|a, b| compare(sort, a, b));
}
