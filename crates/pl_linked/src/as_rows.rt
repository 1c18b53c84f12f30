// Linked rows as rows of a store: each look-up is the one of the same name, and each change that of
// the slots.
ghost use Rattle.std.specs.Prelude.{◌≡◌, ℕ, List, true, false};
ghost use Rattle.pl_base.specs.Good.{is_visited};
ghost use Rattle.pl_base.specs.Marks.{is_referenced};
ghost use Rattle.pl_base.specs.Rows.{WithoutPage, has_page, other_pages, store_of};
ghost use Rattle.pl_record.specs.Form.{StandsFor};
ghost use Rattle.pl_linked.specs.Linked.{IsBase, bytes_of, kept_of, pending_of, targets_of};
ghost use Rattle.pl_linked.specs.LinkedLaws.{based, stands, targeted, well_kept};

use crate::linked::Linked;
use pl_base::{
    Day, Ids, ItemId, ItemRow, Mark, Micros, NoMemory, OriginRow, PageId, Rows, Slot, Steps,
    Touched, Txt, VisitId, VisitRow,
};
use std::sync::ledger::Ledger;

impl Rows for Linked {
    ghost kept = { kept_of };

    ghost bytes = { bytes_of };

    ghost base = { IsBase };

    ghost targets = { targets_of };

    ghost form = { StandsFor };

    ghost pending = { pending_of };

    fn day<L: Ledger>(&self, steps: &mut Steps<L>) -> Day {
        Linked::day(self, steps)
    }

    fn set_day<L: Ledger>(&mut self, day: Day, steps: &mut Steps<L>) {
        self.slots.set_day(day, steps);
    }

    fn ids<L: Ledger>(&self, steps: &mut Steps<L>) -> Ids {
        Linked::ids(self, steps)
    }

    fn live<L: Ledger>(&self, steps: &mut Steps<L>) -> u64 {
        Linked::live(self, steps)
    }

    fn page_after<L: Ledger>(&self, page: Option<PageId>, steps: &mut Steps<L>) -> Option<PageId> {
        Linked::page_after(self, page, steps)
    }

    fn page_at<L: Ledger>(&self, page: PageId, steps: &mut Steps<L>) -> Option<Mark> {
        Linked::page_at(self, page, steps)
    }

    fn url<L: Ledger>(&self, page: PageId, steps: &mut Steps<L>) -> Result<Txt, NoMemory> {
        Linked::url(self, page, steps)
    }

    fn title<L: Ledger>(&self, page: PageId, steps: &mut Steps<L>) -> Result<Txt, NoMemory> {
        Linked::title(self, page, steps)
    }

    fn origin_of<L: Ledger>(&self, page: PageId, steps: &mut Steps<L>) -> Slot {
        Linked::origin_of(self, page, steps)
    }

    fn origin_at<L: Ledger>(&self, origin: Slot, steps: &mut Steps<L>) -> OriginRow {
        Linked::origin_at(self, origin, steps)
    }

    fn insert_page<L: Ledger>(
        &mut self,
        url: &str,
        origin: Option<Slot>,
        steps: &mut Steps<L>,
    ) -> Result<PageId, NoMemory> {
        self.slots.insert_page(url, origin, steps)
    }

    fn remove_page<L: Ledger>(&mut self, page: PageId, steps: &mut Steps<L>)
        requires page { has_page (kept_of self.old) page ≡ true }
        requires unvisited { is_visited (store_of (kept_of self.old)) page ≡ false }
        requires unreferenced { is_referenced (store_of (kept_of self.old)) page ≡ false }
        ensures kept { WithoutPage page (kept_of self.old) (kept_of self.new) }
        // All other pages keep the names of their origins.
        ensures names { (kept_of self.new).pages ≡ other_pages page (kept_of self.old).pages }
        ensures base { (bytes : List ℕ) → IsBase self.old bytes → IsBase self.new bytes }
    {
        self.slots.remove_page(page, steps);
    }

    fn set_title<L: Ledger>(
        &mut self,
        page: PageId,
        title: &str,
        steps: &mut Steps<L>,
    ) -> Result<(), NoMemory> {
        self.slots.set_title(page, title, steps)
    }

    fn set_mark<L: Ledger>(&mut self, page: PageId, mark: Mark, steps: &mut Steps<L>) {
        self.slots.set_mark(page, mark, steps);
    }

    fn set_total<L: Ledger>(&mut self, origin: Slot, total: u64, steps: &mut Steps<L>) {
        self.slots.set_total(origin, total, steps);
    }

    fn visit_at<L: Ledger>(&self, visit: VisitId, steps: &mut Steps<L>) -> Option<VisitRow> {
        Linked::visit_at(self, visit, steps)
    }

    fn visits<L: Ledger>(&self, steps: &mut Steps<L>) -> u32 {
        Linked::visits(self, steps)
    }

    fn latest<L: Ledger>(&self, page: PageId, steps: &mut Steps<L>) -> Option<VisitId> {
        Linked::latest(self, page, steps)
    }

    fn older<L: Ledger>(&self, visit: VisitId, steps: &mut Steps<L>) -> Option<VisitId> {
        Linked::older(self, visit, steps)
    }

    fn first_target<L: Ledger>(&self, visit: VisitId, steps: &mut Steps<L>) -> Option<VisitId> {
        Linked::first_target(self, visit, steps)
    }

    fn next_target<L: Ledger>(&self, visit: VisitId, steps: &mut Steps<L>) -> Option<VisitId> {
        Linked::next_target(self, visit, steps)
    }

    fn insert_visit<L: Ledger>(
        &mut self,
        row: &VisitRow,
        steps: &mut Steps<L>,
    ) -> Result<VisitId, NoMemory> {
        self.slots.insert_visit(row, steps)
    }

    fn remove_visit<L: Ledger>(&mut self, visit: VisitId, steps: &mut Steps<L>) {
        self.slots.remove_visit(visit, steps);
    }

    fn items<L: Ledger>(&self, steps: &mut Steps<L>) -> u32 {
        Linked::items(self, steps)
    }

    fn item_at<L: Ledger>(&self, item: ItemId, steps: &mut Steps<L>) -> Option<ItemRow> {
        Linked::item_at(self, item, steps)
    }

    fn item_title<L: Ledger>(&self, item: ItemId, steps: &mut Steps<L>) -> Result<Txt, NoMemory> {
        Linked::item_title(self, item, steps)
    }

    fn first_child<L: Ledger>(&self, item: ItemId, steps: &mut Steps<L>) -> Option<ItemId> {
        Linked::first_child(self, item, steps)
    }

    fn last_child<L: Ledger>(&self, item: ItemId, steps: &mut Steps<L>) -> Option<ItemId> {
        Linked::last_child(self, item, steps)
    }

    fn next_sibling<L: Ledger>(&self, item: ItemId, steps: &mut Steps<L>) -> Option<ItemId> {
        Linked::next_sibling(self, item, steps)
    }

    fn first_reference<L: Ledger>(&self, page: PageId, steps: &mut Steps<L>) -> Option<ItemId> {
        Linked::first_reference(self, page, steps)
    }

    fn next_reference<L: Ledger>(&self, item: ItemId, steps: &mut Steps<L>) -> Option<ItemId> {
        Linked::next_reference(self, item, steps)
    }

    fn insert_item<L: Ledger>(
        &mut self,
        row: &ItemRow,
        title: &str,
        after: Option<ItemId>,
        steps: &mut Steps<L>,
    ) -> Result<ItemId, NoMemory> {
        self.slots.insert_item(row, title, after, steps)
    }

    fn move_item<L: Ledger>(
        &mut self,
        item: ItemId,
        parent: ItemId,
        after: Option<ItemId>,
        steps: &mut Steps<L>,
    ) {
        self.slots.move_item(item, parent, after, steps);
    }

    fn set_item<L: Ledger>(
        &mut self,
        item: ItemId,
        title: &str,
        modified: Micros,
        steps: &mut Steps<L>,
    ) -> Result<(), NoMemory> {
        self.slots.set_item(item, title, modified, steps)
    }

    fn set_modified<L: Ledger>(&mut self, item: ItemId, modified: Micros, steps: &mut Steps<L>) {
        self.slots.set_modified(item, modified, steps);
    }

    fn remove_item<L: Ledger>(&mut self, item: ItemId, steps: &mut Steps<L>) {
        self.slots.remove_item(item, steps);
    }

    fn touched<L: Ledger>(&mut self, steps: &mut Steps<L>) -> Result<Touched, NoMemory> {
        self.slots.touched(steps)
    }

    ghost based = { based };

    ghost well_kept = { well_kept };

    ghost targeted = { targeted };

    ghost stands = { stands };
}
