// The nodes of an import: each becomes an item at the end of a folder, and behind a bookmark its
// tags.
ghost use Rattle.std.specs.Prelude.{◌≡◌, ◌||◌, ℕ, true, List, IfOk, IfSome, OnOk};
ghost use Rattle.std.specs.Option.{is_some};
ghost use Rattle.pl_base.specs.declared.id.PageId.{PageId};
ghost use Rattle.pl_base.specs.Rows.{has_page, store_of};
ghost use Rattle.pl_base.specs.Store.{item_id};
ghost use Rattle.pl_base.specs.Tree.{children_of, is_page};
ghost use Rattle.pl_nbread.specs.WellFormed.{is_formed};
ghost use Rattle.pl_tree.specs.Places.{before};
ghost use Rattle.pl_graft.specs.Import as spec;
ghost use Rattle.pl_graft.specs.Import.{with_node, with_page_of, with_tags_of};
ghost use Rattle.pl_graft.specs.Ready.{Takes};
ghost use Rattle.pl_graft.specs.Standing.{GoesOn, HasRoom, IsStanding, KeepsFolders, Puts};
ghost use Rattle.pl_graft.specs.Standing.{holds_page, is_gained, with_item};

use super::{Grafting, Open};
use pl_base::{ItemId, ItemRow, NoMemory, PageId, Rows, Steps, cut_title};
use pl_nbread::Node;
use pl_tree::{Place, append};
use std::collections::BTreeSet;
use std::sync::ledger::Ledger;

// A page more, if there is one.
fn gain(gained: &mut BTreeSet<PageId>, page: Option<PageId>) -> Result<(), NoMemory>
    ensures { OnOk result ((other : PageId) → holds_page gained.new other
        ≡ (holds_page gained.old other || is_page other page)) }
{
    if let Some(page) = page {
        gained.insert(page)?;
    }
    Ok(())
}

impl Grafting {
    // The page of a node, if it has an address.
    fn page_of_node<R: Rows, L: Ledger>(
        &mut self,
        rows: &mut R,
        node: &Node,
        steps: &mut Steps<L>,
    ) -> Result<Option<PageId>, NoMemory>
        requires standing { IsStanding (store_of (R.kept rows.old)) self.old }
        requires room { HasRoom (with_page_of node.now.url (store_of (R.kept rows.old))) }
        ensures page { IfOk result (λ page.
            page ≡ spec.page_of node.now.url (store_of (R.kept rows.old))) }
        ensures store { OnOk result (store_of (R.kept rows.new)
            ≡ with_page_of node.now.url (store_of (R.kept rows.old))) }
        ensures standing { OnOk result (IsStanding (store_of (R.kept rows.new)) self.new) }
        ensures goes_on { OnOk result
            (GoesOn (R.kept rows.old) (R.kept rows.new) self.old self.new) }
        ensures base { OnOk result
            ((bytes : List ℕ) → R.base rows.old bytes → R.base rows.new bytes) }
    {
        match &node.url {
            Some(url) => Ok(Some(self.page_of(rows, url, steps)?)),
            None => Ok(None),
        }
    }

    // The item of a node with this page, at the end of a folder.
    fn item_of_node<R: Rows, L: Ledger>(
        &mut self,
        rows: &mut R,
        node: &Node,
        page: Option<PageId>,
        place: Open,
        steps: &mut Steps<L>,
    ) -> Result<ItemId, NoMemory>
        requires standing { IsStanding (store_of (R.kept rows.old)) self.old }
        requires formed { is_formed node.now ≡ true }
        requires url { is_some page ≡ is_some node.now.url }
        requires page { IfSome page (λ id. has_page (R.kept rows.old) id ≡ true) }
        requires takes { Takes (store_of (R.kept rows.old)) place.folder }
        requires last { place.last
            ≡ before Place.End (children_of (R.kept rows.old).items place.folder) }
        requires room { HasRoom
            (with_item place.folder page node.now (store_of (R.kept rows.old))) }
        ensures item { IfOk result (λ id. id ≡ item_id (R.kept rows.old).ids.item) }
        ensures store { OnOk result (store_of (R.kept rows.new)
            ≡ with_item place.folder page node.now (store_of (R.kept rows.old))) }
        ensures standing { OnOk result (IsStanding (store_of (R.kept rows.new)) self.new) }
        ensures goes_on { OnOk result
            (GoesOn (R.kept rows.old) (R.kept rows.new) self.old self.new) }
        ensures gained { OnOk result (IfSome page (λ id. is_gained self.new id ≡ true)) }
        ensures base { OnOk result
            ((bytes : List ℕ) → R.base rows.old bytes → R.base rows.new bytes) }
    {
        let row = ItemRow {
            kind: node.kind,
            parent: Some(place.folder),
            page,
            added: node.added,
            modified: node.modified,
        };
        let title = cut_title(node.title.as_str());
        let id = append(rows, place.folder, place.last, &row, title, steps)?;
        gain(&mut self.gained, page)?;
        Ok(id)
    }

    // The tags of a node with this page, if it is a bookmark.
    fn tags_of_node<R: Rows, L: Ledger>(
        &mut self,
        rows: &mut R,
        node: &Node,
        page: Option<PageId>,
        steps: &mut Steps<L>,
    ) -> Result<(), NoMemory>
        requires standing { IsStanding (store_of (R.kept rows.old)) self.old }
        requires formed { is_formed node.now ≡ true }
        requires page { IfSome page (λ id. has_page (R.kept rows.old) id ≡ true) }
        requires gained { IfSome page (λ id. is_gained self.old id ≡ true) }
        requires room { HasRoom (with_tags_of page node.now (store_of (R.kept rows.old))) }
        ensures store { OnOk result (store_of (R.kept rows.new)
            ≡ with_tags_of page node.now (store_of (R.kept rows.old))) }
        ensures standing { OnOk result (IsStanding (store_of (R.kept rows.new)) self.new) }
        ensures goes_on { OnOk result
            (GoesOn (R.kept rows.old) (R.kept rows.new) self.old self.new) }
        ensures folders { OnOk result
            (KeepsFolders (store_of (R.kept rows.old)) (store_of (R.kept rows.new))) }
        ensures base { OnOk result
            ((bytes : List ℕ) → R.base rows.old bytes → R.base rows.new bytes) }
    {
        match page {
            Some(page) => self.tags(rows, page, node.tags.as_slice(), node.added, steps),
            None => Ok(()),
        }
    }

    // A node at the end of a folder, and behind a bookmark its tags. The answer is its item.
    pub(super) fn node<R: Rows, L: Ledger>(
        &mut self,
        rows: &mut R,
        node: &Node,
        place: Open,
        steps: &mut Steps<L>,
    ) -> Result<ItemId, NoMemory>
        requires standing { IsStanding (store_of (R.kept rows.old)) self.old }
        requires formed { is_formed node.now ≡ true }
        requires takes { Takes (store_of (R.kept rows.old)) place.folder }
        requires last { place.last
            ≡ before Place.End (children_of (R.kept rows.old).items place.folder) }
        requires room { HasRoom (with_node place.folder node.now (store_of (R.kept rows.old))) }
        ensures item { IfOk result (λ id. id ≡ item_id (R.kept rows.old).ids.item) }
        ensures store { OnOk result (store_of (R.kept rows.new)
            ≡ with_node place.folder node.now (store_of (R.kept rows.old))) }
        ensures standing { OnOk result (IsStanding (store_of (R.kept rows.new)) self.new) }
        ensures goes_on { OnOk result
            (GoesOn (R.kept rows.old) (R.kept rows.new) self.old self.new) }
        ensures folders { IfOk result (λ id. Puts place.folder node.now.kind id
            (store_of (R.kept rows.old)) (store_of (R.kept rows.new))) }
        ensures base { OnOk result
            ((bytes : List ℕ) → R.base rows.old bytes → R.base rows.new bytes) }
    {
        let page = self.page_of_node(rows, node, steps)?;
        let id = self.item_of_node(rows, node, page, place, steps)?;
        self.tags_of_node(rows, node, page, steps)?;
        Ok(id)
    }
}
