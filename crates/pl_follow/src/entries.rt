// The pages by frecency, each with the sketch of its texts, as the views change.
ghost use Rattle.std.specs.Prelude.{◌≡◌, IfOk, List, OnOk, Some, false, nat_eq, true};
ghost use Rattle.std.specs.List.{Contains, starts_with};
ghost use Rattle.std.specs.Option.{option_copied};
ghost use Rattle.pl_base.specs.declared.view.View.{View};
ghost use Rattle.pl_base.specs.Fold.{folded};
ghost use Rattle.pl_follow.specs.Changes.{IsChange, Suits, changed, has_view, with_view};
ghost use Rattle.pl_follow.specs.Changes.{without_id};
ghost use Rattle.pl_follow.specs.Order.{KeepsEntries, rank_of, sketch_of_texts};
ghost use Rattle.pl_follow.specs.Texts.{folded_of};
ghost use Rattle.pl_sketch.specs.Pairs.{sketch_of};

use crate::texts::{have_same_texts, title_of};
use pl_base::{NoMemory, PageId, View};
use pl_sketch::Sketch;
use pl_words::{fold, searched};
use std::alloc::Global;
use std::collections::BTreeMap;

/// The entry of the old view goes, and that of the new one comes, as far as there are any. Where
/// the frecency, the id and the texts are the same, nothing is touched, and where the texts are,
/// the sketch is kept.
pub fn change_entry(
    alloc: Global,
    entries: &mut BTreeMap<(i64, PageId), Sketch>,
    old: Option<&View>,
    new: Option<&View>,
) -> Result<(), NoMemory>
    requires change { IsChange (KeepsEntries entries.old) (option_copied old) (option_copied new) }
    ensures { OnOk result ((views : List View) → KeepsEntries entries.old views
        → Suits (option_copied old.entry) (option_copied new.entry) views
        → KeepsEntries entries.new
        (changed (option_copied old.entry) (option_copied new.entry) views)) }
{
    match (old, new) {
        (Some(old), Some(new)) => replace(alloc, entries, old, new),
        (Some(old), None) => {
            take_out(entries, old);
            Ok(())
        }
        (None, Some(new)) => {
            let sketch = sketched(alloc, new)?;
            put_in(entries, new, sketch)
        }
        (None, None) => Ok(()),
    }
}

fn replace(
    alloc: Global,
    entries: &mut BTreeMap<(i64, PageId), Sketch>,
    old: &View,
    new: &View,
) -> Result<(), NoMemory>
    requires change { IsChange (KeepsEntries entries.old) (Some old.now) (Some new.now) }
    ensures { OnOk result ((views : List View) → KeepsEntries entries.old views
        → Suits (Some old.now) (Some new.now) views
        → KeepsEntries entries.new (changed (Some old.now) (Some new.now) views)) }
{
    if have_same_rank(old, new) && have_same_texts(old, new) {
        return Ok(());
    }
    let kept = take_out(entries, old).unwrap();
    let sketch = sketched_anew(alloc, kept, old, new)?;
    put_in(entries, new, sketch)
}

// The entry of a view goes, and its sketch is given.
fn take_out(entries: &mut BTreeMap<(i64, PageId), Sketch>, old: &View) -> Option<Sketch>
    ensures entries { (views : List View) → KeepsEntries entries.old views → Contains views old.now
        → KeepsEntries entries.new (without_id old.now.id views) }
    ensures sketch { (views : List View) → KeepsEntries entries.old views → Contains views old.now
        → result ≡ Some (sketch_of_texts (folded_of old.now)) }
{
    entries.remove(&rank(old))
}

// The entry of a view comes.
fn put_in(
    entries: &mut BTreeMap<(i64, PageId), Sketch>,
    new: &View,
    sketch: Sketch,
) -> Result<(), NoMemory>
    requires sketch { sketch ≡ sketch_of_texts (folded_of new.now) }
    ensures { OnOk result ((views : List View) → KeepsEntries entries.old views
        → has_view new.now.id views ≡ false
        → KeepsEntries entries.new (with_view new.now views)) }
{
    entries.insert(rank(new), sketch)?;
    Ok(())
}

// The frecency of a view and its id.
fn rank(view: &View) -> (i64, PageId)
    ensures { result ≡ rank_of view.now }
{
    (view.frecency, view.id)
}

fn have_same_rank(old: &View, new: &View) -> bool
    ensures { result ≡ true → rank_of old.now ≡ rank_of new.now }
{
    old.frecency == new.frecency && old.id == new.id
}

// The sketch of the new view, where that of the old one is known.
fn sketched_anew(alloc: Global, kept: Sketch, old: &View, new: &View) -> Result<Sketch, NoMemory>
    requires kept { kept ≡ sketch_of_texts (folded_of old.now) }
    requires prefix { starts_with nat_eq new.now.url new.now.prefix ≡ true }
    ensures { IfOk result (λ sketch. sketch ≡ sketch_of_texts (folded_of new.now)) }
{
    if have_same_texts(old, new) {
        return Ok(kept);
    }
    sketched(alloc, new)
}

// The sketch of the folded texts of a view.
fn sketched(alloc: Global, view: &View) -> Result<Sketch, NoMemory>
    requires prefix { starts_with nat_eq view.now.url view.now.prefix ≡ true }
    ensures { IfOk result (λ sketch. sketch ≡ sketch_of_texts (folded_of view.now)) }
{
    let address = searched(alloc, view.url.as_str(), view.prefix.as_str())?;
    let of_address = Sketch::of(address.as_str());
    let of_title = folded_sketch(alloc, title_of(view))?;
    let of_tags = folded_sketch(alloc, view.tags.as_str())?;
    Ok(of_title.union(of_address.union(of_tags)))
}

// The sketch of the fold of a text. That of ASCII is not made for it.
fn folded_sketch(alloc: Global, text: &str) -> Result<Sketch, NoMemory>
    ensures { IfOk result (λ sketch. sketch ≡ sketch_of (folded text.now)) }
{
    if text.is_ascii() {
        return Ok(Sketch::of_lowercase(text));
    }
    let folds = fold(alloc, text)?;
    Ok(Sketch::of(folds.as_str()))
}
