// The tags of an import. One that a page has is passed over.
ghost use Rattle.std.specs.Prelude.{◌≡◌, ◌<◌, ◌^◌, not, ℕ, true, List, IfOk, OnOk};
ghost use Rattle.std.specs.Option.{is_some};
ghost use Rattle.pl_base.specs.Date.{IsDate};
ghost use Rattle.pl_base.specs.Fold.{folded};
ghost use Rattle.pl_base.specs.Good.{HasGoodItems};
ghost use Rattle.pl_base.specs.Rows.{has_page, store_of};
ghost use Rattle.pl_base.specs.Store.{item_id};
ghost use Rattle.pl_tree.specs.Tagged.{tag_entry};
ghost use Rattle.pl_keyed.specs.KnownTags.{IsEntering};
ghost use Rattle.pl_keyed.specs.TagRows.{tag_rows};
ghost use Rattle.pl_graft.specs.Gained.{Grows};
ghost use Rattle.pl_graft.specs.Import.{with_tag, with_tags};
ghost use Rattle.pl_graft.specs.Standing.{GoesOn, HasRoom, IsStanding, KeepsFolders, is_gained};

use super::Grafting;
use pl_base::{ItemId, Micros, NoMemory, PageId, Rows, Steps};
use pl_keyed::Entering;
use pl_tree::enter;
use pl_words::{TagName, fold};
use std::sync::ledger::Ledger;

// The id of an item that is there.
fn item(id: u64) -> ItemId
    requires { id < 2 ^ 32 }
    ensures { result ≡ item_id id }
{
    ItemId(id as u32)
}

// What a page wants to get a tag is put among the rows. The answer is whether there was any.
fn put_tag<R: Rows, L: Ledger>(
    rows: &mut R,
    page: PageId,
    name: &TagName,
    entering: Entering,
    date: Micros,
    steps: &mut Steps<L>,
) -> Result<bool, NoMemory>
    requires good { HasGoodItems (store_of (R.kept rows.old)) }
    requires page { has_page (R.kept rows.old) page ≡ true }
    requires date { IsDate date }
    requires entering { IsEntering page (folded name.now)
        (tag_rows (R.kept rows.old).items) entering }
    requires room { HasRoom (with_tag page date name.now (store_of (R.kept rows.old))) }
    ensures store { OnOk result (store_of (R.kept rows.new)
        ≡ with_tag page date name.now (store_of (R.kept rows.old))) }
    ensures new { IfOk result (λ new.
        new ≡ not (is_some (tag_entry page name.now (R.kept rows.old).items))) }
    ensures grows { OnOk result (Grows (R.kept rows.old) (R.kept rows.new)) }
    ensures good { OnOk result (HasGoodItems (store_of (R.kept rows.new))) }
    ensures base { OnOk result ((bytes : List ℕ) → R.base rows.old bytes → R.base rows.new bytes) }
{
    let (folder, last) = match entering {
        Entering::Has => return Ok(false),
        Entering::Known(folder) => (Some(item(folder.id)), Some(item(folder.last))),
        Entering::New(last) => (None, last.map(item)),
    };
    enter(rows, page, name, folder, last, date, steps)?;
    Ok(true)
}

impl Grafting {
    // A tag for a page; one that it has is passed over.
    fn tag<R: Rows, L: Ledger>(
        &mut self,
        rows: &mut R,
        page: PageId,
        name: &TagName,
        date: Micros,
        steps: &mut Steps<L>,
    ) -> Result<(), NoMemory>
        requires standing { IsStanding (store_of (R.kept rows.old)) self.old }
        requires page { has_page (R.kept rows.old) page ≡ true }
        requires gained { is_gained self.old page ≡ true }
        requires date { IsDate date }
        requires room { HasRoom (with_tag page date name.now (store_of (R.kept rows.old))) }
        ensures store { OnOk result (store_of (R.kept rows.new)
            ≡ with_tag page date name.now (store_of (R.kept rows.old))) }
        ensures standing { OnOk result (IsStanding (store_of (R.kept rows.new)) self.new) }
        ensures goes_on { OnOk result
            (GoesOn (R.kept rows.old) (R.kept rows.new) self.old self.new) }
        ensures folders { OnOk result
            (KeepsFolders (store_of (R.kept rows.old)) (store_of (R.kept rows.new))) }
        ensures gained { OnOk result (self.new.gained ≡ self.old.gained) }
        ensures base { OnOk result
            ((bytes : List ℕ) → R.base rows.old bytes → R.base rows.new bytes) }
    {
        let folds = fold(self.alloc, name.text())?;
        let next = u64::from(rows.ids(steps).item);
        let entering = self
            .tags
            .enter(self.alloc, u64::from(page.0), &folds, next)?;
        self.made += u32::from(put_tag(rows, page, name, entering, date, steps)?);
        Ok(())
    }

    // Some tags for a page, in their order.
    pub(super) fn tags<R: Rows, L: Ledger>(
        &mut self,
        rows: &mut R,
        page: PageId,
        names: &[TagName],
        date: Micros,
        steps: &mut Steps<L>,
    ) -> Result<(), NoMemory>
        requires standing { IsStanding (store_of (R.kept rows.old)) self.old }
        requires page { has_page (R.kept rows.old) page ≡ true }
        requires gained { is_gained self.old page ≡ true }
        requires date { IsDate date }
        requires room { HasRoom (with_tags page date names.now (store_of (R.kept rows.old))) }
        ensures store { OnOk result (store_of (R.kept rows.new)
            ≡ with_tags page date names.now (store_of (R.kept rows.old))) }
        ensures standing { OnOk result (IsStanding (store_of (R.kept rows.new)) self.new) }
        ensures goes_on { OnOk result
            (GoesOn (R.kept rows.old) (R.kept rows.new) self.old self.new) }
        ensures folders { OnOk result
            (KeepsFolders (store_of (R.kept rows.old)) (store_of (R.kept rows.new))) }
        ensures base { OnOk result
            ((bytes : List ℕ) → R.base rows.old bytes → R.base rows.new bytes) }
    {
        for name in names {
            self.tag(rows, page, name, date, steps)?;
        }
        Ok(())
    }
}
