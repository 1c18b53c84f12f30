use crate::Flat;
use crate::flat::mark::mark_page;
use crate::flat::search::{behind, find_page, find_visit, latest_visit};
use crate::flat::targets::{first_target, next_target};
use crate::flat::visit::visit_row;
use pl_base::{
    Day, Ids, ItemId, ItemRow, Mark, Micros, NoMemory, OriginRow, PageId, Rows, Slot, Steps,
    Touched, Txt, VisitId, VisitRow,
};
use pl_stored::StoredVisit;
use std::sync::ledger::Ledger;

// No steps are counted, since each call reads any number of rows.
impl Rows for Flat {
    ghost use Rattle.std.specs.Prelude.{length};
    ghost use Rattle.pl_plain.specs.Flat.{kept_of, bytes_of, IsBase, StandsForAny, pending_of};
    ghost use Rattle.pl_plain.specs.FlatLaws as laws;
    ghost use Rattle.pl_plain.specs.Targets.{targets_of};

    ghost kept = { kept_of };

    ghost bytes = { bytes_of };

    ghost base = { IsBase };

    ghost targets = { λ flat. targets_of (kept_of flat).visits };

    ghost form = { StandsForAny };

    ghost pending = { pending_of };

    fn day<L: Ledger>(&self, steps: &mut Steps<L>) -> Day {
        self.day
    }

    fn set_day<L: Ledger>(&mut self, day: Day, steps: &mut Steps<L>) {
        self.day = day;
    }

    fn ids<L: Ledger>(&self, steps: &mut Steps<L>) -> Ids {
        self.ids
    }

    fn live<L: Ledger>(&self, steps: &mut Steps<L>) -> u64 {
        self.live
    }

    fn page_after<L: Ledger>(&self, page: Option<PageId>, steps: &mut Steps<L>) -> Option<PageId> {
        match page {
            Some(page) => behind(&self.pages, page.0),
            None => behind(&self.pages, 0),
        }
    }

    fn page_at<L: Ledger>(&self, page: PageId, steps: &mut Steps<L>) -> Option<Mark> {
        let page = find_page(&self.pages, page)?;
        Some(page.mark())
    }

    fn url<L: Ledger>(&self, page: PageId, steps: &mut Steps<L>) -> Result<Txt, NoMemory> {
        let page = find_page(&self.pages, page).unwrap();
        Txt::copied(self.alloc, page.url.as_str())
    }

    fn title<L: Ledger>(&self, page: PageId, steps: &mut Steps<L>) -> Result<Txt, NoMemory> {
        let page = find_page(&self.pages, page).unwrap();
        Txt::copied(self.alloc, page.title.as_str())
    }

    fn origin_of<L: Ledger>(&self, page: PageId, steps: &mut Steps<L>) -> Slot {
        find_page(&self.pages, page).unwrap().origin
    }

    fn origin_at<L: Ledger>(&self, origin: Slot, steps: &mut Steps<L>) -> OriginRow {
        OriginRow {
            total: self.totals[origin.0 as usize - 1],
        }
    }

    fn insert_page<L: Ledger>(
        &mut self,
        url: &str,
        origin: Option<Slot>,
        steps: &mut Steps<L>,
    ) -> Result<PageId, NoMemory> {
        let origins = self.totals.len() as u32;
        match origin {
            Some(origin) => self.add_page(url, origin, origins),
            None => self.add_page(url, Slot(origins + 1), origins + 1),
        }
    }

    fn remove_page<L: Ledger>(&mut self, page: PageId, steps: &mut Steps<L>) {
        self.drop_page(page);
    }

    fn set_title<L: Ledger>(
        &mut self,
        page: PageId,
        title: &str,
        steps: &mut Steps<L>,
    ) -> Result<(), NoMemory> {
        self.give_title(page, title)
    }

    fn set_mark<L: Ledger>(&mut self, page: PageId, mark: Mark, steps: &mut Steps<L>) {
        mark_page(&mut self.pages, page, mark);
    }

    fn set_total<L: Ledger>(&mut self, origin: Slot, total: u64, steps: &mut Steps<L>) {
        self.totals[origin.0 as usize - 1] = total;
    }

    fn visit_at<L: Ledger>(&self, visit: VisitId, steps: &mut Steps<L>) -> Option<VisitRow> {
        let visit = find_visit(&self.visits, visit)?;
        Some(visit_row(visit))
    }

    fn visits<L: Ledger>(&self, steps: &mut Steps<L>) -> u32 {
        self.visits.len() as u32
    }

    fn latest<L: Ledger>(&self, page: PageId, steps: &mut Steps<L>) -> Option<VisitId> {
        let latest = latest_visit(&self.visits, page, None)?;
        Some(latest.id)
    }

    fn older<L: Ledger>(&self, visit: VisitId, steps: &mut Steps<L>) -> Option<VisitId> {
        let visit = find_visit(&self.visits, visit)?;
        let older = latest_visit(&self.visits, visit.page, Some(*visit))?;
        Some(older.id)
    }

    fn first_target<L: Ledger>(&self, visit: VisitId, steps: &mut Steps<L>) -> Option<VisitId> {
        first_target(&self.visits, visit)
    }

    fn next_target<L: Ledger>(&self, visit: VisitId, steps: &mut Steps<L>) -> Option<VisitId> {
        next_target(&self.visits, visit)
    }

    fn insert_visit<L: Ledger>(
        &mut self,
        row: &VisitRow,
        steps: &mut Steps<L>,
    ) -> Result<VisitId, NoMemory> {
        let id = VisitId(self.ids.visit);
        self.visits.push(StoredVisit {
            id,
            page: row.page,
            date: row.date,
            transition: row.transition,
            source: row.source,
        })?;
        self.ids.visit += 1;
        self.live += 1;
        Ok(id)
    }

    fn remove_visit<L: Ledger>(&mut self, visit: VisitId, steps: &mut Steps<L>) {
        self.drop_visit(visit);
    }

    fn items<L: Ledger>(&self, steps: &mut Steps<L>) -> u32 {
        self.items.len() as u32
    }

    fn item_at<L: Ledger>(&self, item: ItemId, steps: &mut Steps<L>) -> Option<ItemRow> {
        self.items.item_at(item)
    }

    fn item_title<L: Ledger>(&self, item: ItemId, steps: &mut Steps<L>) -> Result<Txt, NoMemory> {
        Txt::copied(self.alloc, self.items.title(item).unwrap())
    }

    fn first_child<L: Ledger>(&self, item: ItemId, steps: &mut Steps<L>) -> Option<ItemId> {
        self.items.first_child(item)
    }

    fn last_child<L: Ledger>(&self, item: ItemId, steps: &mut Steps<L>) -> Option<ItemId> {
        self.items.last_child(item)
    }

    fn next_sibling<L: Ledger>(&self, item: ItemId, steps: &mut Steps<L>) -> Option<ItemId> {
        self.items.next_sibling(item)
    }

    fn first_reference<L: Ledger>(&self, page: PageId, steps: &mut Steps<L>) -> Option<ItemId> {
        self.items.first_reference(page)
    }

    fn next_reference<L: Ledger>(&self, item: ItemId, steps: &mut Steps<L>) -> Option<ItemId> {
        self.items.next_reference(item)
    }

    fn insert_item<L: Ledger>(
        &mut self,
        row: &ItemRow,
        title: &str,
        after: Option<ItemId>,
        steps: &mut Steps<L>,
    ) -> Result<ItemId, NoMemory> {
        self.add_item(row, title, after)
    }

    fn move_item<L: Ledger>(
        &mut self,
        item: ItemId,
        parent: ItemId,
        after: Option<ItemId>,
        steps: &mut Steps<L>,
    ) {
        self.items.move_to(item, parent, after);
    }

    fn set_item<L: Ledger>(
        &mut self,
        item: ItemId,
        title: &str,
        modified: Micros,
        steps: &mut Steps<L>,
    ) -> Result<(), NoMemory> {
        self.retitle_item(item, title, modified)
    }

    fn set_modified<L: Ledger>(&mut self, item: ItemId, modified: Micros, steps: &mut Steps<L>) {
        self.items.set_modified(item, modified);
    }

    fn remove_item<L: Ledger>(&mut self, item: ItemId, steps: &mut Steps<L>) {
        self.drop_item(item);
    }

    fn touched<L: Ledger>(&mut self, steps: &mut Steps<L>) -> Result<Touched, NoMemory> {
        Ok(Touched::empty(self.alloc, 1, 1))
    }

    ghost based = { laws.based };

    ghost well_kept = { λ flat. laws.well_kept flat.day flat.ids flat.pages.items
        flat.totals.items flat.visits.items flat.items flat.live flat.rows };

    ghost targeted = { λ flat source. laws.targeted (kept_of flat) source };

    ghost stands = { laws.stands };
}
