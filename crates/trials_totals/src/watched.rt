// Rows that tell whose totals are set, and how many records are read.
use pl_base::{
    Day, Ids, ItemId, ItemRow, Mark, Micros, NoMemory, OriginRow, PageId, Rows, Slot, Steps,
    Touched, Txt, VisitId, VisitRow,
};
use std::cell::Cell;
use std::sync::ledger::Ledger;

// No call whose cost is told reads more records.
const MOST_READS: u32 = 4;

/// How often a total was set, and the origins of which it was: the least and the greatest name; and
/// how many records were read at the most.
#[derive(Drop)]
pub struct Log {
    times: Cell<u32>,
    least: Cell<u32>,
    greatest: Cell<u32>,
    records: Cell<u32>,
}

impl Log {
    pub fn empty() -> Log {
        Log {
            times: Cell::new(0),
            least: Cell::new(u32::MAX),
            greatest: Cell::new(0),
            records: Cell::new(0),
        }
    }

    fn read(&self) {
        self.records
            .set(self.records.get().saturating_add(MOST_READS));
    }

    // A call read any number of records.
    fn read_many(&self) {
        self.records.set(u32::MAX);
    }

    fn note(&self, origin: Slot) {
        self.times.set(self.times.get().saturating_add(1));
        self.least.set(self.least.get().min(origin.0));
        self.greatest.set(self.greatest.get().max(origin.0));
    }

    /// How many records were read at the most since the last such call: `u32::MAX` where a call was
    /// made that tells no bound.
    pub fn reads(&self) -> u32 {
        self.records.replace(0)
    }

    /// What was noted of totals since the last such call.
    pub fn taken(&self) -> (u32, u32, u32) {
        (
            self.times.replace(0),
            self.least.replace(u32::MAX),
            self.greatest.replace(0),
        )
    }
}

/// Other rows, of which each total that is set and each call is noted.
#[derive(Drop)]
pub struct Watched<'a, R: Rows + Drop> {
    pub rows: R,
    pub log: &'a Log,
}

impl<'a, R: Rows + Drop> Rows for Watched<'a, R> {
    ghost kept = { λ w. R.kept w.rows };

    ghost bytes = { λ w. R.bytes w.rows };

    ghost base = { λ w. R.base w.rows };

    ghost targets = { λ w. R.targets w.rows };

    ghost form = { R.form };

    ghost pending = { λ w. R.pending w.rows };

    fn day<L: Ledger>(&self, steps: &mut Steps<L>) -> Day {
        self.log.read();
        self.rows.day(steps)
    }

    fn set_day<L: Ledger>(&mut self, day: Day, steps: &mut Steps<L>) {
        self.log.read();
        self.rows.set_day(day, steps);
    }

    fn ids<L: Ledger>(&self, steps: &mut Steps<L>) -> Ids {
        self.log.read();
        self.rows.ids(steps)
    }

    fn live<L: Ledger>(&self, steps: &mut Steps<L>) -> u64 {
        self.log.read();
        self.rows.live(steps)
    }

    fn page_after<L: Ledger>(&self, page: Option<PageId>, steps: &mut Steps<L>) -> Option<PageId> {
        self.log.read();
        self.rows.page_after(page, steps)
    }

    fn page_at<L: Ledger>(&self, page: PageId, steps: &mut Steps<L>) -> Option<Mark> {
        self.log.read();
        self.rows.page_at(page, steps)
    }

    fn url<L: Ledger>(&self, page: PageId, steps: &mut Steps<L>) -> Result<Txt, NoMemory> {
        self.log.read_many();
        self.rows.url(page, steps)
    }

    fn title<L: Ledger>(&self, page: PageId, steps: &mut Steps<L>) -> Result<Txt, NoMemory> {
        self.log.read_many();
        self.rows.title(page, steps)
    }

    fn origin_of<L: Ledger>(&self, page: PageId, steps: &mut Steps<L>) -> Slot {
        self.log.read();
        self.rows.origin_of(page, steps)
    }

    fn origin_at<L: Ledger>(&self, origin: Slot, steps: &mut Steps<L>) -> OriginRow {
        self.log.read();
        self.rows.origin_at(origin, steps)
    }

    fn insert_page<L: Ledger>(
        &mut self,
        url: &str,
        origin: Option<Slot>,
        steps: &mut Steps<L>,
    ) -> Result<PageId, NoMemory> {
        self.log.read_many();
        self.rows.insert_page(url, origin, steps)
    }

    fn remove_page<L: Ledger>(&mut self, page: PageId, steps: &mut Steps<L>) {
        self.log.read_many();
        self.rows.remove_page(page, steps);
    }

    fn set_title<L: Ledger>(
        &mut self,
        page: PageId,
        title: &str,
        steps: &mut Steps<L>,
    ) -> Result<(), NoMemory> {
        self.log.read_many();
        self.rows.set_title(page, title, steps)
    }

    fn set_mark<L: Ledger>(&mut self, page: PageId, mark: Mark, steps: &mut Steps<L>) {
        self.log.read();
        self.rows.set_mark(page, mark, steps);
    }

    fn set_total<L: Ledger>(&mut self, origin: Slot, total: u64, steps: &mut Steps<L>) {
        self.log.read();
        self.log.note(origin);
        self.rows.set_total(origin, total, steps);
    }

    fn visit_at<L: Ledger>(&self, visit: VisitId, steps: &mut Steps<L>) -> Option<VisitRow> {
        self.log.read();
        self.rows.visit_at(visit, steps)
    }

    fn visits<L: Ledger>(&self, steps: &mut Steps<L>) -> u32 {
        self.log.read();
        self.rows.visits(steps)
    }

    fn latest<L: Ledger>(&self, page: PageId, steps: &mut Steps<L>) -> Option<VisitId> {
        self.log.read();
        self.rows.latest(page, steps)
    }

    fn older<L: Ledger>(&self, visit: VisitId, steps: &mut Steps<L>) -> Option<VisitId> {
        self.log.read();
        self.rows.older(visit, steps)
    }

    fn first_target<L: Ledger>(&self, visit: VisitId, steps: &mut Steps<L>) -> Option<VisitId> {
        self.log.read();
        self.rows.first_target(visit, steps)
    }

    fn next_target<L: Ledger>(&self, visit: VisitId, steps: &mut Steps<L>) -> Option<VisitId> {
        self.log.read();
        self.rows.next_target(visit, steps)
    }

    fn insert_visit<L: Ledger>(
        &mut self,
        row: &VisitRow,
        steps: &mut Steps<L>,
    ) -> Result<VisitId, NoMemory> {
        self.log.read_many();
        self.rows.insert_visit(row, steps)
    }

    fn remove_visit<L: Ledger>(&mut self, visit: VisitId, steps: &mut Steps<L>) {
        self.log.read_many();
        self.rows.remove_visit(visit, steps);
    }

    fn items<L: Ledger>(&self, steps: &mut Steps<L>) -> u32 {
        self.log.read();
        self.rows.items(steps)
    }

    fn item_at<L: Ledger>(&self, item: ItemId, steps: &mut Steps<L>) -> Option<ItemRow> {
        self.log.read();
        self.rows.item_at(item, steps)
    }

    fn item_title<L: Ledger>(&self, item: ItemId, steps: &mut Steps<L>) -> Result<Txt, NoMemory> {
        self.log.read_many();
        self.rows.item_title(item, steps)
    }

    fn first_child<L: Ledger>(&self, item: ItemId, steps: &mut Steps<L>) -> Option<ItemId> {
        self.log.read();
        self.rows.first_child(item, steps)
    }

    fn last_child<L: Ledger>(&self, item: ItemId, steps: &mut Steps<L>) -> Option<ItemId> {
        self.log.read();
        self.rows.last_child(item, steps)
    }

    fn next_sibling<L: Ledger>(&self, item: ItemId, steps: &mut Steps<L>) -> Option<ItemId> {
        self.log.read();
        self.rows.next_sibling(item, steps)
    }

    fn first_reference<L: Ledger>(&self, page: PageId, steps: &mut Steps<L>) -> Option<ItemId> {
        self.log.read();
        self.rows.first_reference(page, steps)
    }

    fn next_reference<L: Ledger>(&self, item: ItemId, steps: &mut Steps<L>) -> Option<ItemId> {
        self.log.read();
        self.rows.next_reference(item, steps)
    }

    fn insert_item<L: Ledger>(
        &mut self,
        row: &ItemRow,
        title: &str,
        after: Option<ItemId>,
        steps: &mut Steps<L>,
    ) -> Result<ItemId, NoMemory> {
        self.log.read_many();
        self.rows.insert_item(row, title, after, steps)
    }

    fn move_item<L: Ledger>(
        &mut self,
        item: ItemId,
        parent: ItemId,
        after: Option<ItemId>,
        steps: &mut Steps<L>,
    ) {
        self.log.read_many();
        self.rows.move_item(item, parent, after, steps);
    }

    fn set_item<L: Ledger>(
        &mut self,
        item: ItemId,
        title: &str,
        modified: Micros,
        steps: &mut Steps<L>,
    ) -> Result<(), NoMemory> {
        self.log.read_many();
        self.rows.set_item(item, title, modified, steps)
    }

    fn set_modified<L: Ledger>(&mut self, item: ItemId, modified: Micros, steps: &mut Steps<L>) {
        self.log.read_many();
        self.rows.set_modified(item, modified, steps);
    }

    fn remove_item<L: Ledger>(&mut self, item: ItemId, steps: &mut Steps<L>) {
        self.log.read_many();
        self.rows.remove_item(item, steps);
    }

    fn touched<L: Ledger>(&mut self, steps: &mut Steps<L>) -> Result<Touched, NoMemory> {
        self.log.read_many();
        self.rows.touched(steps)
    }

    ghost based = { λ w. R.based w.rows };

    ghost well_kept = { λ w. R.well_kept w.rows };

    ghost targeted = { λ w. R.targeted w.rows };

    ghost stands = { λ w. R.stands w.rows };
}
