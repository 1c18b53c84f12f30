// The list of a folder's children, and where a place lies in it.
ghost use Rattle.std.specs.Prelude.{◌≡◌, length, min, take, IfOk};
ghost use Rattle.std.specs.List.{slice_get};
ghost use Rattle.std.specs.Result.{result_err};
ghost use Rattle.pl_base.specs.Good.{HasGoodItems};
ghost use Rattle.pl_base.specs.Rows.{store_of};
ghost use Rattle.pl_base.specs.Tree.{children_of, last_item};
ghost use Rattle.pl_tree.specs.Places.{before, others};
ghost use Rattle.pl_tree.specs.Refused as spec;

use crate::Place;
use pl_base::{ItemId, Refusal, Rows, Steps};
use std::sync::ledger::Ledger;

/// The child of a folder at a position, counted from 0. No memory is taken.
pub fn child_at<R: Rows, L: Ledger>(
    rows: &R,
    parent: ItemId,
    place: u32,
    steps: &mut Steps<L>,
) -> Option<ItemId>
    requires good { HasGoodItems (store_of (R.kept rows.now)) }
    ensures { result ≡ slice_get (children_of (R.kept rows.now).items parent) place }
{
    let mut child = rows.first_child(parent, steps);
    for _ in 0..place {
        child = rows.next_sibling(child?, steps);
    }
    child
}

// How far a walk over the children of a folder came.
#[derive(Clone, Copy)]
struct Reached {
    count: u32,
    last: Option<ItemId>,
}

// The first children of a folder, at most so many, with one of them left out.
fn first_children<R: Rows, L: Ledger>(
    rows: &R,
    parent: ItemId,
    left_out: Option<ItemId>,
    limit: u32,
    steps: &mut Steps<L>,
) -> Reached
    requires good { HasGoodItems (store_of (R.kept rows.now)) }
    ensures count { result.count
        ≡ min limit (length (others left_out (children_of (R.kept rows.now).items parent))) }
    ensures last { result.last
        ≡ last_item (take limit (others left_out (children_of (R.kept rows.now).items parent))) }
{
    let mut count = 0;
    let mut last = None;
    let mut next = rows.first_child(parent, steps);
    while let Some(child) = next {
        if count == limit {
            break;
        }
        if Some(child) != left_out {
            count += 1;
            last = next;
        }
        next = rows.next_sibling(child, steps);
    }
    Reached { count, last }
}

/// Behind which child of a folder a place lies, where one child is left out.
pub(crate) fn child_before<R: Rows, L: Ledger>(
    rows: &R,
    parent: ItemId,
    place: Place,
    left_out: Option<ItemId>,
    steps: &mut Steps<L>,
) -> Result<Option<ItemId>, Refusal>
    requires good { HasGoodItems (store_of (R.kept rows.now)) }
    ensures refused { result_err result ≡ spec.place_refusal place
        (length (others left_out (children_of (R.kept rows.now).items parent))) }
    ensures before { IfOk result (λ after. after
        ≡ before place (others left_out (children_of (R.kept rows.now).items parent))) }
{
    match place {
        Place::End if left_out.is_none() => Ok(rows.last_child(parent, steps)),
        Place::End => Ok(first_children(rows, parent, left_out, u32::MAX, steps).last),
        Place::Number(n) => {
            let reached = first_children(rows, parent, left_out, n, steps);
            if reached.count < n {
                return Err(Refusal::BadPlace(n, reached.count));
            }
            Ok(reached.last)
        }
    }
}
