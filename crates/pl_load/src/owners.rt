// Whether the numbers in rows name origins and items.
ghost use Rattle.std.specs.Prelude.{◌≡◌};
ghost use Rattle.std.specs.List.{list_all};
ghost use Rattle.pl_load.specs.Owners as spec;

use pl_base::Steps;
use pl_rail::{Owner, is_member};
use pl_record::{Item, Place};
use pl_slot::{Arena, LiveKind, Rail};
use std::sync::ledger::Ledger;

/// Whether each page names the slot of an origin.
pub fn name_origins<L: Ledger>(arena: &Arena, places: &[Place], steps: &mut Steps<L>) -> bool
    ensures { result ≡ list_all (spec.names_origin arena.now) places.now }
{
    for place in places {
        let owner = Owner::Header(LiveKind::Origin);
        if !is_member(arena, Rail::Live, owner, place.origin, steps) {
            return false;
        }
    }
    true
}

/// Whether each item names no parent, or the slot of an item.
pub fn name_parents<L: Ledger>(arena: &Arena, items: &[Item], steps: &mut Steps<L>) -> bool
    ensures { result ≡ list_all (spec.names_parent arena.now) items.now }
{
    for item in items {
        if !names_parent(arena, item, steps) {
            return false;
        }
    }
    true
}

fn names_parent<L: Ledger>(arena: &Arena, item: &Item, steps: &mut Steps<L>) -> bool
    ensures { result ≡ spec.names_parent arena.now item.now }
{
    let owner = Owner::Header(LiveKind::Item);
    item.parent.0 == 0 || is_member(arena, Rail::Live, owner, item.parent, steps)
}
