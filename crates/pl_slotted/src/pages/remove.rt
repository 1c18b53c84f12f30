// A page that goes, and its origin with its last page.
ghost use Rattle.std.specs.Prelude.{◌≡◌, ℕ, List, IsSome, true, false};
ghost use Rattle.pl_base.specs.declared.id.Slot.{Slot as Number};
ghost use Rattle.pl_base.specs.Good.{is_visited};
ghost use Rattle.pl_base.specs.Marks.{is_referenced};
ghost use Rattle.pl_base.specs.Rows.{WithoutPage, has_page, other_pages, store_of};
ghost use Rattle.pl_record.specs.ChainMap as maps;
ghost use Rattle.pl_record.specs.LastPage.{LeavesOrigin};
ghost use Rattle.pl_rail.specs.declared.owner.Owner.TheVariants as owners;
ghost use Rattle.pl_rail.specs.declared.owner.Side.TheVariants as sides;
ghost use Rattle.pl_rail.specs.Rails as rails;
ghost use Rattle.pl_slot.specs.declared.kind.LiveKind.TheVariants as live;
ghost use Rattle.pl_slot.specs.declared.links.Rail.TheVariants.{Live, OriginPages};

use crate::slotted::Slotted;
use pl_base::{PageId, Slot, Steps};
use pl_rail::{Owner, first};
use pl_record::{read_place, remove_origin, remove_place};
use pl_slot::{Arena, Rail};
use std::sync::ledger::Ledger;

impl Slotted {
    ghost use Rattle.pl_slotted.specs.Slotted.{IsBase, kept_of};

    /// The page goes, which has no visit and no item, and its origin with its last page. All other
    /// pages keep the names of their origins. No memory is taken.
    pub fn remove_page<L: Ledger>(&mut self, page: PageId, steps: &mut Steps<L>)
        requires page { has_page (kept_of self.old) page ≡ true }
        requires unvisited { is_visited (store_of (kept_of self.old)) page ≡ false }
        requires unreferenced { is_referenced (store_of (kept_of self.old)) page ≡ false }
        ensures kept { WithoutPage page (kept_of self.old) (kept_of self.new) }
        ensures names { (kept_of self.new).pages ≡ other_pages page (kept_of self.old).pages }
        ensures base { (bytes : List ℕ) → IsBase self.old bytes → IsBase self.new bytes }
    {
        let slot = self.page_slot(page);
        let place = read_place(&self.arena, slot, steps);
        remove_place(&mut self.arena, slot, steps);
        let more = drop_origin(&mut self.arena, place.origin, steps);
        let gone = 1 + place.url.slots() + place.title.slots() + more;
        let live = self.arena.live() - gone;
        self.arena.set_live(live);
        self.pages.remove(page.0);
    }
}

// Frees the slot of an origin that has no page. It tells how many slots it freed.
fn drop_origin<L: Ledger>(arena: &mut Arena, origin: Slot, steps: &mut Steps<L>) -> u32
    requires asked { IsSome (rails.end_at sides.Behind OriginPages (owners.At origin) arena.old) }
    requires member { rails.HasMember Live (owners.Header live.Origin) origin arena.old }
    requires chained { (chains : maps.ChainMap) × maps.AreChains chains arena.old }
    ensures left { (slots : List Number)
        → rails.Lists OriginPages (owners.At origin) slots arena.old
        → LeavesOrigin origin slots result arena.old arena.new }
{
    if first(arena, Rail::OriginPages, Owner::At(origin), steps).is_some() {
        return 0;
    }
    remove_origin(arena, origin, steps);
    1
}
