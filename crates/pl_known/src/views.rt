// Views by ascending ids, and changes by those of their pages.
ghost use Rattle.std.specs.Prelude.{◌≡◌, OnOk, Some};
ghost use Rattle.std.specs.List.{list_any};
ghost use Rattle.std.specs.Option.{is_none, option_copied};
ghost use Rattle.pl_base.specs.declared.change.Change.{Change};
ghost use Rattle.pl_follow.specs.Changes.{AreInOrder};
ghost use Rattle.pl_known.specs.Changes.{id_of};
ghost use Rattle.pl_known.specs.Known.{view_of};
ghost use Rattle.pl_known.specs.Passes as passes;
ghost use Rattle.pl_known.specs.Passes.{AscendById, all_put, change_of, staying};

use pl_base::{Change, NoMemory, PageId, View};
use std::alloc::Global;

/// The view of the page with this id.
pub fn find_view(views: &[View], id: PageId) -> Option<&View>
    requires order { AreInOrder views.now }
    ensures { option_copied result ≡ view_of id views.now }
{
    let place = views.binary_search_by_key(&id.0, |view| view.id.0).ok()?;
    views.get(place)
}

// The id of the page that changes.
fn page_of(change: &Change) -> u32
    ensures { result ≡ id_of change.now }
{
    match (&change.old, &change.new) {
        (Some(old), _) => old.id.0,
        (None, Some(new)) => new.id.0,
        (None, None) => 0,
    }
}

// The change of the page with this id.
fn find_change(changes: &[Change], id: PageId) -> Option<&Change>
    requires ids { AscendById changes.now }
    ensures { option_copied result ≡ change_of id changes.now }
{
    let place = changes.binary_search_by_key(&id.0, page_of).ok()?;
    changes.get(place)
}

// Whether the page with this id goes.
fn goes(changes: &[Change], id: PageId) -> bool
    requires ids { AscendById changes.now }
    ensures { result ≡ passes.goes changes.now id }
{
    match find_change(changes, id) {
        Some(change) => change.new.is_none(),
        None => false,
    }
}

// Whether some page goes.
fn some_go(changes: &[Change]) -> bool
    ensures { result ≡ list_any (λ (c : Change). is_none c.new) changes.now }
{
    changes.iter().any(|change| change.new.is_none())
}

/// The views of the pages that these changes take away go, all in one pass.
pub fn drop_views(views: &mut Vec<View>, changes: &[Change])
    requires ids { AscendById changes.now }
    ensures { views.new.items ≡ staying changes.now views.old.items }
{
    if some_go(changes) {
        views.retain(|view| !goes(changes, view.id));
    }
}

// A view comes in place of that of its page, or between the others where it has none.
fn put_view(alloc: Global, views: &mut Vec<View>, new: &View) -> Result<(), NoMemory>
    requires order { AreInOrder views.old.items }
    ensures { OnOk result (views.new.items ≡ passes.put (Some new.now) views.old.items) }
{
    let copy = new.copied(alloc)?;
    match views.binary_search_by_key(&new.id.0, |view| view.id.0) {
        Ok(place) => {
            views[place] = copy;
            Ok(())
        }
        Err(place) => {
            views.insert(place, copy)?;
            Ok(())
        }
    }
}

// The new view of a change comes, if there is one.
fn put_new(alloc: Global, views: &mut Vec<View>, change: &Change) -> Result<(), NoMemory>
    requires order { AreInOrder views.old.items }
    ensures { OnOk result (views.new.items ≡ passes.put change.now.new views.old.items) }
{
    match &change.new {
        Some(new) => put_view(alloc, views, new),
        None => Ok(()),
    }
}

/// The new views of these changes come, each in place of that of its page if there is one.
pub fn put_views(alloc: Global, views: &mut Vec<View>, changes: &[Change]) -> Result<(), NoMemory>
    requires order { AreInOrder views.old.items }
    ensures { OnOk result (views.new.items ≡ all_put changes.now views.old.items) }
{
    for change in changes {
        put_new(alloc, views, change)?;
    }
    Ok(())
}
