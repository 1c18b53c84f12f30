// The lists of nodes of the four roots.
ghost use Rattle.std.specs.Prelude.{◌≡◌, ◌++◌, IfOk, OnOk};
ghost use Rattle.pl_base.specs.Good.{IsGood};
ghost use Rattle.pl_base.specs.Rows.{store_of};
ghost use Rattle.pl_base.specs.Store.{Store, opening};
ghost use Rattle.pl_graft.specs.Import.{imported};
ghost use Rattle.pl_nbwrite.specs.Plain.{IsPlain};
ghost use Rattle.pl_outline.specs.BroughtBack.{IsBroughtBack};
ghost use Rattle.pl_outline.specs.KnownTags.{KnowsTags};
ghost use Rattle.pl_outline.specs.Outline as spec;
ghost use Rattle.pl_outline.specs.Outline.{all_below, bookmarks, whole};
ghost use Rattle.pl_outline.specs.Pile.{placed};
ghost use Rattle.pl_outline.specs.Shown.{node_as};
ghost use Rattle.pl_outline.specs.Whole.{IsWhole};

use crate::node::{Shown, node};
use crate::tags::KnownTags;
use pl_base::{ItemId, NoMemory, Rows, Seq, Steps};
use pl_nbread::{Node, Tree};
use std::alloc::Global;
use std::sync::ledger::Ledger;

// An item that is not listed yet, and how many folders stand around it, the root not counted.
#[derive(Clone, Copy, Debug)]
struct Place {
    item: ItemId,
    depth: u32,
}

// Puts the item of a place on the pile, if there is one.
fn push(places: &mut Vec<Place>, item: Option<ItemId>, depth: u32) -> Result<(), NoMemory>
    ensures { OnOk result (places.new.items ≡ places.old.items ++ placed depth item) }
{
    if let Some(item) = item {
        places.push(Place { item, depth })?;
    }
    Ok(())
}

// The nodes of what stands in a root. What is left of each list that was begun lies on a pile, the
// innermost on top, so that nothing recurs on depth.
fn list<R: Rows, L: Ledger>(
    alloc: Global,
    rows: &R,
    root: ItemId,
    shown: Shown,
    known: &mut KnownTags,
    steps: &mut Steps<L>,
) -> Result<Seq<Node>, NoMemory>
    requires good { IsGood (store_of (R.kept rows.now)) }
    requires known { KnowsTags (store_of (R.kept rows.now)) known.old }
    ensures nodes { IfOk result (λ nodes. nodes
        ≡ all_below (node_as shown (store_of (R.kept rows.now))) (R.kept rows.now).items root) }
    ensures known { OnOk result (KnowsTags (store_of (R.kept rows.now)) known.new) }
{
    let mut nodes = Vec::new(alloc);
    let mut places = Vec::new(alloc);
    push(&mut places, rows.first_child(root, steps), 0)?;
    while let Some(place) = places.pop() {
        nodes.push(node(alloc, rows, place.item, place.depth, shown, known, steps)?)?;
        push(
            &mut places,
            rows.next_sibling(place.item, steps),
            place.depth,
        )?;
        push(
            &mut places,
            rows.first_child(place.item, steps),
            place.depth + 1,
        )?;
    }
    Ok(Seq::from(nodes))
}

// The tree of a store, each item shown so.
fn shown_tree<R: Rows, L: Ledger>(
    alloc: Global,
    rows: &R,
    shown: Shown,
    steps: &mut Steps<L>,
) -> Result<Tree, NoMemory>
    requires { IsGood (store_of (R.kept rows.now)) }
    ensures { IfOk result (λ tree. tree
        ≡ spec.shown_tree (node_as shown) (store_of (R.kept rows.now))) }
{
    let mut known = KnownTags::new(alloc);
    Ok(Tree {
        menu: list(alloc, rows, ItemId(2), shown, &mut known, steps)?,
        toolbar: list(alloc, rows, ItemId(3), shown, &mut known, steps)?,
        unfiled: list(alloc, rows, ItemId(5), shown, &mut known, steps)?,
        mobile: list(alloc, rows, ItemId(6), shown, &mut known, steps)?,
        skipped: 0,
    })
}

/// The bookmarks of a store: the menu, the toolbar, the unfiled and the mobile ones.
pub fn tree<R: Rows, L: Ledger>(
    alloc: Global,
    rows: &R,
    steps: &mut Steps<L>,
) -> Result<Tree, NoMemory>
    requires { IsGood (store_of (R.kept rows.now)) }
    ensures tree { IfOk result (λ tree. tree ≡ bookmarks (store_of (R.kept rows.now))) }

    // A bookmark file keeps all of it, and an import into the store before its first command gives
    // a store with the same bookmarks.
    ensures plain { IfOk result IsPlain }
    ensures returns { IfOk result (λ tree. bookmarks (imported tree opening) ≡ tree) }
{
    shown_tree(alloc, rows, Shown::Kept, steps)
}

/// The same with all that the store has of them: dates to the microsecond, and the titles and
/// dates of separators.
pub fn whole_tree<R: Rows, L: Ledger>(
    alloc: Global,
    rows: &R,
    steps: &mut Steps<L>,
) -> Result<Tree, NoMemory>
    requires { IsGood (store_of (R.kept rows.now)) }
    ensures tree { IfOk result (λ tree. tree ≡ whole (store_of (R.kept rows.now))) }
    ensures whole { IfOk result IsWhole }

    // A restore that puts it in place of the bookmarks of any good store gives a store with just
    // this tree.
    ensures restores { IfOk result (λ tree. (first : Store) → IsGood first → IsBroughtBack tree first) }
{
    shown_tree(alloc, rows, Shown::Whole, steps)
}
