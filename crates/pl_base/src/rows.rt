ghost use Rattle.std.specs.Prelude.{◌≡◌, ◌≢◌, ◌↔◌, ◌+◌, ◌≤◌, ◌<◌, ℕ, List};
ghost use Rattle.std.specs.Prelude.{[], Some, false, true, length, IfOk, IfSome, IsSome};
ghost use Rattle.std.specs.Prelude.{IsSomeAnd, OnOk, Option};
ghost use Rattle.std.specs.List.{All};
ghost use Rattle.std.specs.Option.{option_map};
ghost use Rattle.pl_base.specs.declared.id.VisitId.{VisitId};
ghost use Rattle.pl_base.specs.Address.{is_store_url};
ghost use Rattle.pl_base.specs.Date.{IsDate, IsDay};
ghost use Rattle.pl_base.specs.Good.{end_of_ids, is_visited, longest_title};
ghost use Rattle.pl_base.specs.Live.{chunks, live_slots, slot_limit};
ghost use Rattle.pl_base.specs.Marks.{is_referenced};
ghost use Rattle.pl_base.specs.Rows.{Kept, KeptPage, IsSound, IsWellKept, store_of};
ghost use Rattle.pl_base.specs.Rows.{has_page, has_visit, mark_of, row_of, page_at, visit_at};
ghost use Rattle.pl_base.specs.Rows.{page_behind, page_visits, first_id, older_visit, url_of};
ghost use Rattle.pl_base.specs.Rows.{origin_of, IsOriginOf, WithPageIn, with_day, with_mark};
ghost use Rattle.pl_base.specs.Rows.{with_visit, live_with_page, most_reads, title_of, with_title};
ghost use Rattle.pl_base.specs.Rows.{live_with_title, AreTargets, target_behind, WithoutPage};
ghost use Rattle.pl_base.specs.Rows.{live_with_item, live_with_item_title, with_item, with_items};
ghost use Rattle.pl_base.specs.Rows.{has_origin, total_at, with_total, without_visit};
ghost use Rattle.pl_base.specs.Store.{Store, Visit};
ghost use Rattle.pl_base.specs.Touched.{IsAtMostMore, IsWithin, MayDiffer, bytes_before, changed};
ghost use Rattle.pl_base.specs.Touched.{page_numbers, row_pages};
ghost use Rattle.pl_base.specs.Tree.{IsFolder, children_of, first_item, has_item, item_at};
ghost use Rattle.pl_base.specs.Tree.{item_row, item_title, last_item, lies_in, moved, parent_of};
ghost use Rattle.pl_base.specs.Tree.{redated, reference_behind, references, removed, retitled};
ghost use Rattle.pl_base.specs.Tree.{sibling_behind};

use crate::{
    Day, Ids, ItemId, ItemKind, ItemRow, Mark, Micros, NoMemory, OriginRow, PageId, Slot, Steps,
    Touched, Txt, VisitId, VisitRow,
};
use std::sync::ledger::Ledger;

/// No store takes more slots of 128 bytes.
pub const SLOT_LIMIT: u32 = 4_194_304;

/// The rows of a store, however they are kept, and the bytes that a file
/// of it holds from page 1 on.
///
/// A call that answers `NoMemory` leaves the rows to be given up. `steps` counts how often rows
/// that stand in slots read one; rows without slots count nothing.
pub trait Rows {
    /// The rows, and what was computed of them last.
    ghost kept: { Self → Kept };

    /// The store's bytes from page 1 on.
    ghost bytes: { Self → List ℕ };

    /// What these bytes may have been at the last `touched`; before the first one, what the rows
    /// were made over.
    ghost base: { Self → List ℕ → Type 0 };

    /// The visits that came from each visit, in the order in which they are gone through.
    ghost targets: { Self → VisitId → List Visit };

    /// Which bytes from page 1 on stand for a store.
    ghost form: { List ℕ → Store → Type 0 };

    /// How many pages the next `touched` lists, where the rows tell it.
    ghost pending: { Self → Option ℕ };

    fn day<L: Ledger>(&self, steps: &mut Steps<L>) -> Day
        ensures day { result ≡ (kept self.now).day }
        ensures cost { steps.new ≤ steps.old + most_reads };

    fn set_day<L: Ledger>(&mut self, day: Day, steps: &mut Steps<L>)
        requires { IsDay day }
        ensures kept { kept self.new ≡ with_day day (kept self.old) }
        ensures base { (bytes : List ℕ) → base self.old bytes → base self.new bytes }
        ensures cost { steps.new ≤ steps.old + most_reads };

    /// The next ids.
    fn ids<L: Ledger>(&self, steps: &mut Steps<L>) -> Ids
        ensures ids { result ≡ (kept self.now).ids }
        ensures cost { steps.new ≤ steps.old + most_reads };

    /// How many slots of 128 bytes the store takes.
    fn live<L: Ledger>(&self, steps: &mut Steps<L>) -> u64
        ensures live { result ≡ live_slots (store_of (kept self.now)) }
        ensures cost { steps.new ≤ steps.old + most_reads };

    /// The next page by id, or the first one.
    fn page_after<L: Ledger>(&self, page: Option<PageId>, steps: &mut Steps<L>) -> Option<PageId>
        ensures next { result ≡ page_behind (kept self.now) page }
        ensures cost { steps.new ≤ steps.old + most_reads };

    fn page_at<L: Ledger>(&self, page: PageId, steps: &mut Steps<L>) -> Option<Mark>
        ensures mark { result ≡ option_map mark_of (page_at (kept self.now) page) }
        ensures cost { steps.new ≤ steps.old + most_reads };

    fn url<L: Ledger>(&self, page: PageId, steps: &mut Steps<L>) -> Result<Txt, NoMemory>
        requires { has_page (kept self.now) page ≡ true }
        ensures url { IfOk result (λ url. Some url ≡ url_of (kept self.now) page) };

    fn title<L: Ledger>(&self, page: PageId, steps: &mut Steps<L>) -> Result<Txt, NoMemory>
        requires { has_page (kept self.now) page ≡ true }
        ensures title { IfOk result (λ title. Some title ≡ title_of (kept self.now) page) };

    fn origin_of<L: Ledger>(&self, page: PageId, steps: &mut Steps<L>) -> Slot
        requires { has_page (kept self.now) page ≡ true }
        ensures origin { Some result ≡ origin_of (kept self.now) page }
        ensures cost { steps.new ≤ steps.old + most_reads };

    fn origin_at<L: Ledger>(&self, origin: Slot, steps: &mut Steps<L>) -> OriginRow
        requires { has_origin (kept self.now) origin ≡ true }
        ensures total { Some result.total ≡ total_at (kept self.now) origin }
        ensures cost { steps.new ≤ steps.old + most_reads };

    /// A new page with the next id, in the given origin or in a new one. Its URL is a URL of the
    /// store that no page has.
    fn insert_page<L: Ledger>(
        &mut self,
        url: &str,
        origin: Option<Slot>,
        steps: &mut Steps<L>,
    ) -> Result<PageId, NoMemory>
        requires url { is_store_url url.now ≡ true }
        requires absent { All (λ (p : KeptPage). p.page.url ≢ url.now) (kept self.old).pages }
        requires origin { IsOriginOf (kept self.old) url.now origin }
        requires id { (kept self.old).ids.page < end_of_ids }
        requires live { live_with_page url.now (kept self.old) ≤ slot_limit }
        ensures page { IfOk result (λ page. page.0 ≡ (kept self.old).ids.page) }
        ensures kept { OnOk result (WithPageIn url.now origin (kept self.old) (kept self.new)) }
        ensures pages { OnOk result (IsAtMostMore (row_pages + chunks url.now)
            (pending self.old) (pending self.new)) }
        ensures base { OnOk result ((bytes : List ℕ) → base self.old bytes → base self.new bytes) };

    /// The page goes, which has no visit and no item, and its origin with its last page. The other
    /// origins may have other names from then on. No memory is taken.
    fn remove_page<L: Ledger>(&mut self, page: PageId, steps: &mut Steps<L>)
        requires page { has_page (kept self.old) page ≡ true }
        requires unvisited { is_visited (store_of (kept self.old)) page ≡ false }
        requires unreferenced { is_referenced (store_of (kept self.old)) page ≡ false }
        ensures kept { WithoutPage page (kept self.old) (kept self.new) }
        ensures base { (bytes : List ℕ) → base self.old bytes → base self.new bytes };

    fn set_title<L: Ledger>(
        &mut self,
        page: PageId,
        title: &str,
        steps: &mut Steps<L>,
    ) -> Result<(), NoMemory>
        requires page { has_page (kept self.old) page ≡ true }
        requires title { length title.now ≤ longest_title }
        requires live { live_with_title page title.now (kept self.old) ≤ slot_limit }
        ensures kept { OnOk result (kept self.new ≡ with_title page title.now (kept self.old)) }
        ensures base { OnOk result ((bytes : List ℕ) → base self.old bytes → base self.new bytes) };

    fn set_mark<L: Ledger>(&mut self, page: PageId, mark: Mark, steps: &mut Steps<L>)
        requires { has_page (kept self.old) page ≡ true }
        ensures kept { kept self.new ≡ with_mark page mark (kept self.old) }
        ensures pages { IsAtMostMore 1 (pending self.old) (pending self.new) }
        ensures base { (bytes : List ℕ) → base self.old bytes → base self.new bytes }
        ensures cost { steps.new ≤ steps.old + most_reads };

    fn set_total<L: Ledger>(&mut self, origin: Slot, total: u64, steps: &mut Steps<L>)
        requires { has_origin (kept self.old) origin ≡ true }
        ensures kept { kept self.new ≡ with_total origin total (kept self.old) }
        ensures pages { IsAtMostMore 1 (pending self.old) (pending self.new) }
        ensures base { (bytes : List ℕ) → base self.old bytes → base self.new bytes }
        ensures cost { steps.new ≤ steps.old + most_reads };

    fn visit_at<L: Ledger>(&self, visit: VisitId, steps: &mut Steps<L>) -> Option<VisitRow>
        ensures row { result ≡ option_map row_of (visit_at (kept self.now) visit) }
        ensures cost { steps.new ≤ steps.old + most_reads };

    /// How many visits there are.
    fn visits<L: Ledger>(&self, steps: &mut Steps<L>) -> u32
        ensures visits { result ≡ length (kept self.now).visits }
        ensures cost { steps.new ≤ steps.old + most_reads };

    /// The latest visit of a page.
    fn latest<L: Ledger>(&self, page: PageId, steps: &mut Steps<L>) -> Option<VisitId>
        ensures latest { result ≡ first_id (page_visits (kept self.now) page) }
        ensures cost { steps.new ≤ steps.old + most_reads };

    /// The visit of the same page that is next before it by date, and by id
    /// where dates are the same.
    fn older<L: Ledger>(&self, visit: VisitId, steps: &mut Steps<L>) -> Option<VisitId>
        ensures older { result ≡ older_visit (kept self.now) visit }
        ensures cost { steps.new ≤ steps.old + most_reads };

    /// The first of the visits that came from this one. A redirect stands before all others.
    fn first_target<L: Ledger>(&self, visit: VisitId, steps: &mut Steps<L>) -> Option<VisitId>
        ensures first { result ≡ first_id (targets self.now visit) }
        ensures cost { steps.new ≤ steps.old + most_reads };

    /// The next of the visits that came from the same one.
    fn next_target<L: Ledger>(&self, visit: VisitId, steps: &mut Steps<L>) -> Option<VisitId>
        ensures next { result ≡ target_behind (targets self.now) (kept self.now) visit }
        ensures cost { steps.new ≤ steps.old + most_reads };

    /// A new visit with the next id.
    fn insert_visit<L: Ledger>(
        &mut self,
        row: &VisitRow,
        steps: &mut Steps<L>,
    ) -> Result<VisitId, NoMemory>
        requires page { has_page (kept self.old) row.now.page ≡ true }
        requires date { IsDate row.now.date }
        requires source { IfSome row.now.source (λ id. has_visit (kept self.old) id ≡ true) }
        requires id { (kept self.old).ids.visit < end_of_ids }
        requires live { live_slots (store_of (kept self.old)) < slot_limit }
        ensures visit { IfOk result (λ visit. visit.0 ≡ (kept self.old).ids.visit) }
        ensures kept { OnOk result (kept self.new ≡ with_visit row.now (kept self.old)) }
        ensures pages { OnOk result (IsAtMostMore row_pages
            (pending self.old) (pending self.new)) }
        ensures base { OnOk result ((bytes : List ℕ) → base self.old bytes → base self.new bytes) };

    /// The visit goes, and the visits that came from it came from none from then on. No memory is
    /// taken.
    fn remove_visit<L: Ledger>(&mut self, visit: VisitId, steps: &mut Steps<L>)
        requires { has_visit (kept self.old) visit ≡ true }
        ensures kept { kept self.new ≡ without_visit visit (kept self.old) }
        ensures base { (bytes : List ℕ) → base self.old bytes → base self.new bytes };

    /// How many items there are, the roots among them.
    fn items<L: Ledger>(&self, steps: &mut Steps<L>) -> u32
        ensures items { result ≡ length (kept self.now).items }
        ensures cost { steps.new ≤ steps.old + most_reads };

    fn item_at<L: Ledger>(&self, item: ItemId, steps: &mut Steps<L>) -> Option<ItemRow>
        ensures row { result ≡ option_map (item_row (kept self.now).items)
            (item_at (kept self.now).items item) }
        ensures cost { steps.new ≤ steps.old + most_reads };

    fn item_title<L: Ledger>(&self, item: ItemId, steps: &mut Steps<L>) -> Result<Txt, NoMemory>
        requires { has_item (kept self.now).items item ≡ true }
        ensures title { IfOk result (λ title.
            Some title ≡ item_title (kept self.now).items item) };

    fn first_child<L: Ledger>(&self, item: ItemId, steps: &mut Steps<L>) -> Option<ItemId>
        ensures first { result ≡ first_item (children_of (kept self.now).items item) }
        ensures cost { steps.new ≤ steps.old + most_reads };

    fn last_child<L: Ledger>(&self, item: ItemId, steps: &mut Steps<L>) -> Option<ItemId>
        ensures last { result ≡ last_item (children_of (kept self.now).items item) }
        ensures cost { steps.new ≤ steps.old + most_reads };

    /// The child of the same item that comes next.
    fn next_sibling<L: Ledger>(&self, item: ItemId, steps: &mut Steps<L>) -> Option<ItemId>
        ensures next { result ≡ sibling_behind (kept self.now).items item }
        ensures cost { steps.new ≤ steps.old + most_reads };

    /// The first by id of the items that have this page.
    fn first_reference<L: Ledger>(&self, page: PageId, steps: &mut Steps<L>) -> Option<ItemId>
        ensures first { result ≡ first_item (references (kept self.now).items page) }
        ensures cost { steps.new ≤ steps.old + most_reads };

    /// The next by id of the items that have the same page.
    fn next_reference<L: Ledger>(&self, item: ItemId, steps: &mut Steps<L>) -> Option<ItemId>
        ensures next { result ≡ reference_behind (kept self.now).items item }
        ensures cost { steps.new ≤ steps.old + most_reads };

    /// A new item with the next id, the child of its row's parent behind the given one, or the
    /// first child.
    fn insert_item<L: Ledger>(
        &mut self,
        row: &ItemRow,
        title: &str,
        after: Option<ItemId>,
        steps: &mut Steps<L>,
    ) -> Result<ItemId, NoMemory>
        requires parent { IsSomeAnd row.now.parent (IsFolder (kept self.old).items) }
        requires after { IfSome after (λ id. parent_of (kept self.old).items id ≡ row.now.parent) }
        requires bookmark { IsSome row.now.page ↔ (row.now.kind ≡ ItemKind.Bookmark) }
        requires page { IfSome row.now.page (λ id. has_page (kept self.old) id ≡ true) }
        requires title { length title.now ≤ longest_title }
        requires added { IsDate row.now.added }
        requires modified { IsDate row.now.modified }
        requires id { (kept self.old).ids.item < end_of_ids }
        requires live { live_with_item row.now title.now after (kept self.old) ≤ slot_limit }
        ensures item { IfOk result (λ item. item.0 ≡ (kept self.old).ids.item) }
        ensures kept { OnOk result (kept self.new
            ≡ with_item row.now title.now after (kept self.old)) }
        ensures base { OnOk result ((bytes : List ℕ) → base self.old bytes → base self.new bytes) };

    /// The item becomes a child of this parent, behind the given one, or the first child. No memory
    /// is taken.
    fn move_item<L: Ledger>(
        &mut self,
        item: ItemId,
        parent: ItemId,
        after: Option<ItemId>,
        steps: &mut Steps<L>,
    )
        requires item { has_item (kept self.old).items item ≡ true }
        requires parent { IsFolder (kept self.old).items parent }
        requires outside { lies_in (kept self.old).items item parent ≡ false }
        requires after { IfSome after (λ id.
            (id ≢ item) × (parent_of (kept self.old).items id ≡ Some parent)) }
        ensures kept { kept self.new
            ≡ with_items (moved item parent after (kept self.old).items) (kept self.old) }
        ensures base { (bytes : List ℕ) → base self.old bytes → base self.new bytes };

    fn set_item<L: Ledger>(
        &mut self,
        item: ItemId,
        title: &str,
        modified: Micros,
        steps: &mut Steps<L>,
    ) -> Result<(), NoMemory>
        requires item { has_item (kept self.old).items item ≡ true }
        requires title { length title.now ≤ longest_title }
        requires modified { IsDate modified }
        requires live { live_with_item_title item title.now modified (kept self.old) ≤ slot_limit }
        ensures kept { OnOk result (kept self.new
            ≡ with_items (retitled item title.now modified (kept self.old).items)
            (kept self.old)) }
        ensures base { OnOk result ((bytes : List ℕ) → base self.old bytes → base self.new bytes) };

    fn set_modified<L: Ledger>(&mut self, item: ItemId, modified: Micros, steps: &mut Steps<L>)
        requires item { has_item (kept self.old).items item ≡ true }
        requires modified { IsDate modified }
        ensures kept { kept self.new
            ≡ with_items (redated item modified (kept self.old).items) (kept self.old) }
        ensures base { (bytes : List ℕ) → base self.old bytes → base self.new bytes };

    /// The item goes, which has no child.
    fn remove_item<L: Ledger>(&mut self, item: ItemId, steps: &mut Steps<L>)
        requires item { has_item (kept self.old).items item ≡ true }
        requires leaf { children_of (kept self.old).items item ≡ [] }
        ensures kept { kept self.new
            ≡ with_items (removed item (kept self.old).items) (kept self.old) }
        ensures base { (bytes : List ℕ) → base self.old bytes → base self.new bytes };

    /// The pages of the bytes that changed since the last such call, or since the rows were made.
    fn touched<L: Ledger>(&mut self, steps: &mut Steps<L>) -> Result<Touched, NoMemory>
        ensures whole { IfOk result (λ change. (base_bytes : List ℕ) → base self.old base_bytes
            → changed change base_bytes ≡ bytes self.old) }
        ensures before { IfOk result (λ change. (base_bytes : List ℕ) → base self.old base_bytes
            → length base_bytes ≡ bytes_before change.before) }
        ensures after { IfOk result (λ change.
            length (bytes self.old) ≡ bytes_before change.after) }
        ensures within { IfOk result IsWithin }
        ensures some { IfOk result (λ change. 1 ≤ change.before) }
        // No page is listed that is the same in all bytes that the last call may have told of.
        ensures needed { IfOk result (λ change.
            All (MayDiffer (base self.old) (bytes self.old)) (page_numbers change.pages)) }
        ensures listed { IfOk result (λ change.
            IfSome (pending self.old) (λ count. length change.pages ≡ count)) }
        ensures pending { OnOk result (IfSome (pending self.old) (λ count.
            pending self.new ≡ Some 0)) }
        ensures kept { kept self.new ≡ kept self.old }
        ensures bytes { bytes self.new ≡ bytes self.old }
        ensures base { OnOk result ((base_bytes : List ℕ)
            → base self.new base_bytes ↔ (base_bytes ≡ bytes self.old)) };

    /// There are bytes that the last `touched` may have been told of.
    ghost based: { (rows : Self) → (base_bytes : List ℕ) × base rows base_bytes };

    /// What holds of all rows.
    ghost well_kept: { (rows : Self) → IsWellKept (kept rows) };

    /// The targets of each visit are those of the definition.
    ghost targeted: { (rows : Self) (source : VisitId)
        → AreTargets (store_of (kept rows)) source (targets rows source) };

    /// The bytes stand for a good store whose marks and totals are right.
    ghost stands: { (rows : Self) → IsSound (kept rows)
        → form (bytes rows) (store_of (kept rows)) };
}
