// Whether a page has the tags that are asked for, found by way of the items that have it.
ghost use Rattle.std.specs.Prelude.{◌≡◌, ℕ, List, true, IfOk, OnOk};
ghost use Rattle.std.specs.List.{list_all, list_any};
ghost use Rattle.pl_base.specs.Fold.{folded};
ghost use Rattle.pl_base.specs.Good.{IsGood};
ghost use Rattle.pl_base.specs.Rows.{store_of};
ghost use Rattle.pl_base.specs.Tree.{has_item};
ghost use Rattle.pl_marks.specs.TagFolders.{tag_title};
ghost use Rattle.pl_conditions.specs.Asked.{IsAsked};
ghost use Rattle.pl_conditions.specs.AskedParts as parts;
ghost use Rattle.pl_conditions.specs.Conditions as spec;
ghost use Rattle.pl_conditions.specs.Conditions.{has_tag_named};

use crate::asked::Asked;
use pl_base::{ItemId, NoMemory, PageId, Rows, Steps, Txt};
use pl_marks::tag_folder;
use pl_words::fold;
use std::alloc::Global;
use std::sync::ledger::Ledger;

// The fold of the tag that the item gives its page joins the others.
fn add_fold<R: Rows, L: Ledger>(
    alloc: Global,
    rows: &R,
    item: ItemId,
    folds: &mut Vec<Txt>,
    steps: &mut Steps<L>,
) -> Result<(), NoMemory>
    requires { has_item (R.kept rows.now).items item ≡ true }
    ensures { OnOk result (folds.new.items
        ≡ parts.with_fold (tag_title (R.kept rows.now).items item) folds.old.items) }
{
    let Some(folder) = tag_folder(rows, item, steps) else {
        return Ok(());
    };
    let title = rows.item_title(folder, steps)?;
    folds.push(fold(alloc, title.as_str())?)?;
    Ok(())
}

// The folds of the page's tags.
fn tag_folds<R: Rows, L: Ledger>(
    alloc: Global,
    rows: &R,
    page: PageId,
    steps: &mut Steps<L>,
) -> Result<Vec<Txt>, NoMemory>
    requires { IsGood (store_of (R.kept rows.now)) }
    ensures { IfOk result (λ folds. (name : List ℕ)
        → parts.is_among folds.items (folded name)
        ≡ has_tag_named (store_of (R.kept rows.now)) page name) }
{
    let mut folds = Vec::new(alloc);
    let mut next = rows.first_reference(page, steps);
    while let Some(item) = next {
        add_fold(alloc, rows, item, &mut folds, steps)?;
        next = rows.next_reference(item, steps);
    }
    Ok(folds)
}

// Whether the fold of a tag is one of these.
fn is_among(folds: &[Txt], tag: &Txt) -> bool
    ensures { result ≡ parts.is_among folds.now tag.now }
{
    folds.contains(tag)
}

// Whether all tags are among the folds.
fn all_are_among(folds: &[Txt], tags: &[Txt]) -> bool
    ensures { result ≡ list_all (parts.is_among folds.now) tags.now }
{
    tags.iter().all(|tag| is_among(folds, tag))
}

// Whether one of the tags is among the folds.
fn one_is_among(folds: &[Txt], tags: &[Txt]) -> bool
    ensures { result ≡ list_any (parts.is_among folds.now) tags.now }
{
    tags.iter().any(|tag| is_among(folds, tag))
}

// Whether all tags are among the folds, or none of them where that is asked.
fn are_among(folds: &[Txt], tags: &[Txt], not_tags: bool) -> bool
    ensures { result ≡ parts.are_among folds.now tags.now not_tags }
{
    if not_tags {
        !one_is_among(folds, tags)
    } else {
        all_are_among(folds, tags)
    }
}

/// Whether the page has all the tags, or none of them where that is asked.
pub fn has_tags_asked<R: Rows, L: Ledger>(
    alloc: Global,
    rows: &R,
    asked: &Asked<'_>,
    page: PageId,
    steps: &mut Steps<L>,
) -> Result<bool, NoMemory>
    requires good { IsGood (store_of (R.kept rows.now)) }
    requires asked { IsAsked (store_of (R.kept rows.now)) asked.now.query.now asked.now }
    ensures { IfOk result (λ holds. holds ≡ spec.has_tags_asked (store_of (R.kept rows.now))
        asked.now.query.now.tags asked.now.query.now.not_tags page) }
{
    if asked.tags.is_empty() {
        return Ok(true);
    }
    let folds = tag_folds(alloc, rows, page, steps)?;
    Ok(are_among(&folds, &asked.tags, asked.query.not_tags))
}
