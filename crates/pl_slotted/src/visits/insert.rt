// A visit that comes.
ghost use Rattle.std.specs.Prelude.{◌≡◌, ◌≤◌, ◌<◌, ◌+◌, ◌++◌, ◌∷◌, [], ◌^◌, ℕ, List, Some};
ghost use Rattle.std.specs.Prelude.{true, IfOk, IfSome, OnErr, OnOk};
ghost use Rattle.std.specs.List.{AllByRecursion};
ghost use Rattle.pl_base.specs.declared.id.Slot.{Slot as Number};
ghost use Rattle.pl_base.specs.Date.{IsDate};
ghost use Rattle.pl_base.specs.Good.{end_of_ids};
ghost use Rattle.pl_base.specs.Live.{live_slots, slot_limit};
ghost use Rattle.pl_base.specs.Rows.{has_page, has_visit, store_of, with_visit};
ghost use Rattle.pl_base.specs.Touched.{IsAtMostMore, row_pages};
ghost use Rattle.pl_record.specs.ChainMap as maps;
ghost use Rattle.pl_record.specs.SlotChanges.{CountsVisit};
ghost use Rattle.pl_record.specs.VisitChanges as spec;
ghost use Rattle.pl_rail.specs.Rails as rails;
ghost use Rattle.pl_slot.specs.declared.kind.SlotKind.TheVariants as kinds;
ghost use Rattle.pl_slot.specs.declared.links.Rail.TheVariants.{PageVisits, Targets};
ghost use Rattle.pl_slot.specs.Arena as slots;
ghost use Rattle.pl_slot.specs.Links.{kind_at};

use crate::slotted::Slotted;
use pl_base::{NoMemory, Slot, Steps, VisitId, VisitRow};
use pl_byid::SlotIndex;
use pl_record::{Visit, take_visit};
use pl_slot::Arena;
use std::sync::ledger::Ledger;

impl Slotted {
    ghost use Rattle.pl_slotted.specs.Slotted.{IsBase, kept_of, pending_of};

    /// A new visit with the next id. It finds its place among its page's visits from the latest on.
    pub fn insert_visit<L: Ledger>(
        &mut self,
        row: &VisitRow,
        steps: &mut Steps<L>,
    ) -> Result<VisitId, NoMemory>
        requires page { has_page (kept_of self.old) row.now.page ≡ true }
        requires date { IsDate row.now.date }
        requires source { IfSome row.now.source (λ id. has_visit (kept_of self.old) id ≡ true) }
        requires id { (kept_of self.old).ids.visit < end_of_ids }
        requires live { live_slots (store_of (kept_of self.old)) < slot_limit }
        ensures visit { IfOk result (λ visit. visit.0 ≡ (kept_of self.old).ids.visit) }
        ensures kept { OnOk result (kept_of self.new ≡ with_visit row.now (kept_of self.old)) }
        ensures pages { OnOk result (IsAtMostMore row_pages
            (pending_of self.old) (pending_of self.new)) }
        ensures base { OnOk result ((bytes : List ℕ)
            → IsBase self.old bytes → IsBase self.new bytes) }
    {
        let visit = self.next_visit(row);
        place_visit(&mut self.arena, &mut self.visits, visit, steps)?;
        count_visit(&mut self.arena);
        Ok(visit.id)
    }

    // The visit of a row, with the next id and the slots of its page and its source.
    fn next_visit(&self, row: &VisitRow) -> Visit
        requires page { has_page (kept_of self.now) row.now.page ≡ true }
        requires source { IfSome row.now.source (λ id. has_visit (kept_of self.now) id ≡ true) }
        ensures { spec.IsNextVisit row.now self.now.pages.entries self.now.visits.entries
            self.now.arena result }
    {
        Visit {
            id: VisitId(self.arena.ids().visit),
            transition: row.transition,
            page: self.page_slot(row.page),
            source: match row.source {
                Some(source) => self.visit_slot(source),
                None => Slot(0),
            },
            date: row.date,
        }
    }
}

// Puts a new visit into its slot, and its slot into the index, behind all others.
fn place_visit<L: Ledger>(
    arena: &mut Arena,
    visits: &mut SlotIndex,
    visit: Visit,
    steps: &mut Steps<L>,
) -> Result<(), NoMemory>
    requires last { AllByRecursion (λ (e : ℕ × Number). e.0 < visit.id.0) visits.old.entries }
    requires page { kind_at visit.page.0 arena.old ≡ Some kinds.Place }
    requires source { IfSome (rails.named visit.source) (λ s.
        kind_at s.0 arena.old ≡ Some kinds.Visit) }
    requires few { slots.live_count arena.old < slot_limit }
    requires chained { (chains : maps.ChainMap) × maps.AreChains chains arena.old
        × maps.AreApart PageVisits chains × maps.AreApart Targets chains }
    ensures placed { OnOk result ((slot : Number)
        × spec.TakesVisit visit slot arena.old arena.new
        × (visits.new.entries ≡ visits.old.entries ++ (visit.id.0, slot) ∷ [])) }
    ensures err { OnErr result (arena.new ≡ arena.old) }
    ensures entries { OnErr result (visits.new.entries ≡ visits.old.entries) }
{
    visits.push(visit.id.0, Slot(0))?;
    match take_visit(arena, visit, steps) {
        Ok(slot) => {
            visits.set(visit.id.0, slot);
            Ok(())
        }
        Err(error) => {
            visits.remove(visit.id.0);
            Err(error)
        }
    }
}

// The next id of a visit, and one more live slot.
fn count_visit(arena: &mut Arena)
    requires id { (slots.header_of arena.old).ids.visit + 1 < 2 ^ 32 }
    requires live { (slots.header_of arena.old).live + 1 < 2 ^ 32 }
    ensures { CountsVisit arena.old arena.new }
{
    prove!(arena.pages() > 0);
    let live = arena.live() + 1;
    let mut ids = arena.ids();
    ids.visit += 1;
    arena.set_ids(&ids);
    arena.set_live(live);
}
