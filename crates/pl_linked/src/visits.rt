// Visits and their targets, read.
ghost use Rattle.std.specs.Prelude.{◌≡◌, ◌≤◌, ◌+◌, length, IfSome, Some};
ghost use Rattle.std.specs.Option.{option_and_then, option_map};
ghost use Rattle.pl_base.specs.Rows.{first_id, most_reads, older_visit, page_visits};
ghost use Rattle.pl_base.specs.Rows.{row_of, target_behind, visit_at};
ghost use Rattle.pl_record.specs.Rows as spec;
ghost use Rattle.pl_slot.specs.declared.kind.SlotKind.TheVariants as kinds;
ghost use Rattle.pl_slot.specs.Links.{kind_at};

use crate::linked::Linked;
use pl_base::{PageId, Slot, Steps, VisitId, VisitRow};
use pl_rail::{Owner, first, next};
use pl_record::{named, read_place, read_visit};
use pl_slot::{Arena, Rail};
use std::sync::ledger::Ledger;

// The id of the visit in a slot, if there is one.
fn id_in<L: Ledger>(arena: &Arena, slot: Option<Slot>, steps: &mut Steps<L>) -> Option<VisitId>
    requires visit { IfSome slot (λ s. kind_at s.0 arena.now ≡ Some kinds.Visit) }
    ensures id { result ≡ option_and_then (spec.visit_in arena.now) slot }
    ensures few { steps.new ≤ steps.old + 1 }
{
    match slot {
        Some(slot) => Some(read_visit(arena, slot, steps).id),
        None => None,
    }
}

impl Linked {
    ghost use Rattle.pl_linked.specs.Linked.{kept_of, targets_of};

    /// The visit with this id, without its id.
    pub fn visit_at<L: Ledger>(&self, visit: VisitId, steps: &mut Steps<L>) -> Option<VisitRow>
        ensures row { result ≡ option_map row_of (visit_at (kept_of self.now) visit) }
        ensures cost { steps.new ≤ steps.old + most_reads }
    {
        let slot = self.slots.visits.slot_at(visit.0)?;
        let row = read_visit(&self.slots.arena, slot, steps);
        Some(VisitRow {
            page: read_place(&self.slots.arena, row.page, steps).id,
            date: row.date,
            transition: row.transition,
            source: id_in(&self.slots.arena, named(row.source), steps),
        })
    }

    /// How many visits there are.
    pub fn visits<L: Ledger>(&self, steps: &mut Steps<L>) -> u32
        ensures visits { result ≡ length (kept_of self.now).visits }
        ensures cost { steps.new ≤ steps.old + most_reads }
    {
        self.slots.visits.len() as u32
    }

    /// The latest visit of a page.
    pub fn latest<L: Ledger>(&self, page: PageId, steps: &mut Steps<L>) -> Option<VisitId>
        ensures latest { result ≡ first_id (page_visits (kept_of self.now) page) }
        ensures cost { steps.new ≤ steps.old + most_reads }
    {
        let slot = self.slots.pages.slot_at(page.0)?;
        let latest = first(&self.slots.arena, Rail::PageVisits, Owner::At(slot), steps);
        id_in(&self.slots.arena, latest, steps)
    }

    /// The visit of the same page that is next before it by date, and by id where dates are the
    /// same.
    pub fn older<L: Ledger>(&self, visit: VisitId, steps: &mut Steps<L>) -> Option<VisitId>
        ensures older { result ≡ older_visit (kept_of self.now) visit }
        ensures cost { steps.new ≤ steps.old + most_reads }
    {
        let slot = self.slots.visits.slot_at(visit.0)?;
        let older = next(&self.slots.arena, Rail::PageVisits, slot, steps);
        id_in(&self.slots.arena, older, steps)
    }

    /// The first of the visits that came from this one. A redirect stands before all others.
    pub fn first_target<L: Ledger>(&self, visit: VisitId, steps: &mut Steps<L>) -> Option<VisitId>
        ensures first { result ≡ first_id (targets_of self.now visit) }
        ensures cost { steps.new ≤ steps.old + most_reads }
    {
        let slot = self.slots.visits.slot_at(visit.0)?;
        let target = first(&self.slots.arena, Rail::Targets, Owner::At(slot), steps);
        id_in(&self.slots.arena, target, steps)
    }

    /// The next of the visits that came from the same one.
    pub fn next_target<L: Ledger>(&self, visit: VisitId, steps: &mut Steps<L>) -> Option<VisitId>
        ensures next { result ≡ target_behind (targets_of self.now) (kept_of self.now) visit }
        ensures cost { steps.new ≤ steps.old + most_reads }
    {
        let slot = self.slots.visits.slot_at(visit.0)?;
        named(read_visit(&self.slots.arena, slot, steps).source)?;
        let target = next(&self.slots.arena, Rail::Targets, slot, steps);
        id_in(&self.slots.arena, target, steps)
    }
}
