// Whether a page is bookmarked, and its tags, found by way of the items that have it.
ghost use Rattle.std.specs.Prelude.{◌≡◌, ◌≤◌, ◌+◌, Some, true, IfOk, OnOk};
ghost use Rattle.std.specs.BTreeMap.{values};
ghost use Rattle.std.specs.List.{All};
ghost use Rattle.pl_base.specs.Good.{IsGood, IsTagName};
ghost use Rattle.pl_base.specs.Rows.{most_reads, store_of};
ghost use Rattle.pl_base.specs.Tags as tags;
ghost use Rattle.pl_base.specs.Tags.{comma_joined};
ghost use Rattle.pl_base.specs.Tree as tree;
ghost use Rattle.pl_base.specs.Tree.{has_item};
ghost use Rattle.pl_marks.specs.TagFolders as spec;
ghost use Rattle.pl_marks.specs.TagFolders.{folder_reads, tag_title, with_tag};

use pl_base::{ItemId, NoMemory, PageId, Rows, Seq, Steps, Txt};
use pl_words::{TagName, fold};
use std::alloc::Global;
use std::cmp::Ordering;
use std::collections::BTreeMap;
use std::marker::Model;
use std::sync::ledger::Ledger;

// The fold of a title, in the order of its bytes.
#[derive(Drop)]
struct Fold {
    text: Txt,
}

impl Model for Fold {
    ghost use Rattle.std.specs.Prelude.{ℕ, List};

    ghost Value = { List ℕ };

    ghost view = { λ f. f.text };
}

impl PartialEq for Fold {
    ghost use Rattle.std.specs.Cmp.Lexicographic.{slice_cmp};
    ghost use Rattle.std.specs.Ordering.{eq_by_cmp, nat_cmp};
    ghost use Rattle.std.specs.Cmp.{partial_equiv_from_equiv};
    ghost use Rattle.std.proofs.lemmas.Cmp.{eq_by_cmp_equiv, nat_list_cmp_total};

    ghost eq = { eq_by_cmp (slice_cmp nat_cmp) };

    ghost laws = { partial_equiv_from_equiv (eq_by_cmp_equiv nat_list_cmp_total) };

    fn eq(&self, other: &Fold) -> bool {
        self.cmp(other) == Ordering::Equal
    }
}

impl Eq for Fold {
    ghost use Rattle.std.proofs.lemmas.Cmp.{eq_by_cmp_equiv, nat_list_cmp_total};

    ghost laws = { eq_by_cmp_equiv nat_list_cmp_total };
}

impl PartialOrd for Fold {
    ghost use Rattle.std.specs.Cmp.{partial_order_from_total};
    ghost use Rattle.std.specs.Cmp.Lexicographic.{slice_cmp};
    ghost use Rattle.std.specs.Ordering.{nat_cmp};
    ghost use Rattle.std.proofs.lemmas.Cmp.{nat_list_cmp_total};

    ghost partial_cmp = { λ a b. Some (slice_cmp nat_cmp a b) };

    ghost laws = { partial_order_from_total nat_list_cmp_total };

    fn partial_cmp(&self, other: &Fold) -> Option<Ordering> {
        Some(self.cmp(other))
    }
}

impl Ord for Fold {
    ghost use Rattle.std.specs.Prelude.{refl};
    ghost use Rattle.std.specs.Cmp.Lexicographic.{slice_cmp};
    ghost use Rattle.std.specs.Ordering.{nat_cmp};
    ghost use Rattle.std.proofs.lemmas.Cmp.{nat_list_cmp_total};

    ghost cmp = { slice_cmp nat_cmp };

    ghost total = { nat_list_cmp_total };

    ghost matches_partial_cmp = { λ a b. refl };

    ghost matches_eq = { λ a b. refl };

    fn cmp(&self, other: &Fold) -> Ordering {
        self.text.as_str().cmp(other.text.as_str())
    }
}

// The item whose child it is.
fn parent<R: Rows, L: Ledger>(rows: &R, item: ItemId, steps: &mut Steps<L>) -> Option<ItemId>
    requires { has_item (R.kept rows.now).items item ≡ true }
    ensures parent { result ≡ tree.parent_of (R.kept rows.now).items item }
    ensures cost { steps.new ≤ steps.old + most_reads }
{
    rows.item_at(item, steps)?.parent
}

/// The tag folder that the item is in.
pub fn tag_folder<R: Rows, L: Ledger>(
    rows: &R,
    item: ItemId,
    steps: &mut Steps<L>,
) -> Option<ItemId>
    requires { has_item (R.kept rows.now).items item ≡ true }
    ensures folder { result ≡ spec.tag_folder (R.kept rows.now).items item }
    ensures cost { steps.new ≤ steps.old + folder_reads }
{
    let folder = parent(rows, item, steps)?;
    if parent(rows, folder, steps) == Some(ItemId::TAGS) {
        Some(folder)
    } else {
        None
    }
}

/// Whether an item has the page that is in no tag folder.
pub fn is_bookmarked<R: Rows, L: Ledger>(rows: &R, page: PageId, steps: &mut Steps<L>) -> bool
    ensures { result ≡ tags.is_bookmarked (store_of (R.kept rows.now)) page }
{
    let mut next = rows.first_reference(page, steps);
    while let Some(item) = next {
        if tag_folder(rows, item, steps).is_none() {
            return true;
        }
        next = rows.next_reference(item, steps);
    }
    false
}

/// Whether an item has the page that is in a tag folder.
pub fn is_tagged<R: Rows, L: Ledger>(rows: &R, page: PageId, steps: &mut Steps<L>) -> bool
    ensures { result ≡ tags.is_tagged (store_of (R.kept rows.now)) page }
{
    let mut next = rows.first_reference(page, steps);
    while let Some(item) = next {
        if tag_folder(rows, item, steps).is_some() {
            return true;
        }
        next = rows.next_reference(item, steps);
    }
    false
}

// The tag that the item gives its page joins the others, by its fold.
fn add_tag<R: Rows, L: Ledger>(
    alloc: Global,
    rows: &R,
    item: ItemId,
    tags: &mut BTreeMap<Fold, Txt>,
    steps: &mut Steps<L>,
) -> Result<(), NoMemory>
    requires { has_item (R.kept rows.now).items item ≡ true }
    ensures { OnOk result (tags.new.entries
        ≡ with_tag (tag_title (R.kept rows.now).items item) tags.old.entries) }
{
    let Some(folder) = tag_folder(rows, item, steps) else {
        return Ok(());
    };
    let title = rows.item_title(folder, steps)?;
    let text = fold(alloc, title.as_str())?;
    tags.insert(Fold { text }, title)?;
    Ok(())
}

// The tags of a page by the folds of their names.
fn tags_by_fold<R: Rows, L: Ledger>(
    alloc: Global,
    rows: &R,
    page: PageId,
    steps: &mut Steps<L>,
) -> Result<BTreeMap<Fold, Txt>, NoMemory>
    requires { IsGood (store_of (R.kept rows.now)) }
    ensures { IfOk result (λ found.
        values found ≡ tags.page_tags (store_of (R.kept rows.now)) page) }
{
    let mut tags = BTreeMap::new(alloc);
    let mut next = rows.first_reference(page, steps);
    while let Some(item) = next {
        add_tag(alloc, rows, item, &mut tags, steps)?;
        next = rows.next_reference(item, steps);
    }
    Ok(tags)
}

fn joined(alloc: Global, tags: &BTreeMap<Fold, Txt>) -> Result<Txt, NoMemory>
    ensures { IfOk result (λ text. text ≡ comma_joined (values tags.now)) }
{
    let mut text = String::new(alloc);
    let mut is_first = true;
    for title in tags.values() {
        if !is_first {
            text.push(',')?;
        }
        text.push_str(title.as_str())?;
        is_first = false;
    }
    Ok(Txt::from(text))
}

/// The tags of a page, in the order of their folds and joined by commas.
pub fn tag_text<R: Rows, L: Ledger>(
    alloc: Global,
    rows: &R,
    page: PageId,
    steps: &mut Steps<L>,
) -> Result<Txt, NoMemory>
    requires { IsGood (store_of (R.kept rows.now)) }
    ensures { IfOk result (λ text. text ≡ tags.tag_text (store_of (R.kept rows.now)) page) }
{
    joined(alloc, &tags_by_fold(alloc, rows, page, steps)?)
}

// The names of tags.
fn named(alloc: Global, tags: &BTreeMap<Fold, Txt>) -> Result<Vec<TagName>, NoMemory>
    requires { All IsTagName (values tags.now) }
    ensures { IfOk result (λ names. names.items ≡ values tags.now) }
{
    let mut names = Vec::new(alloc);
    for title in tags.values() {
        names.push(TagName::of(alloc, title.as_str())?)?;
    }
    Ok(names)
}

/// The tags of a page, in the order of their folds.
pub fn page_tags<R: Rows, L: Ledger>(
    alloc: Global,
    rows: &R,
    page: PageId,
    steps: &mut Steps<L>,
) -> Result<Seq<TagName>, NoMemory>
    requires { IsGood (store_of (R.kept rows.now)) }
    ensures { IfOk result (λ names. names ≡ tags.page_tags (store_of (R.kept rows.now)) page) }
{
    let tags = tags_by_fold(alloc, rows, page, steps)?;
    Ok(Seq::from(named(alloc, &tags)?))
}
