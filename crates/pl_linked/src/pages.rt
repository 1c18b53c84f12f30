// Pages and their origins, read.
ghost use Rattle.std.specs.Prelude.{◌≡◌, ◌≤◌, ◌+◌, true, IfOk, IsSomeAnd, Some};
ghost use Rattle.std.specs.Option.{option_map};
ghost use Rattle.pl_base.specs.Rows.{has_origin, has_page, mark_of, most_reads, origin_of};
ghost use Rattle.pl_base.specs.Rows.{page_at, page_behind, title_of, total_at, url_of};
ghost use Rattle.pl_record.specs.LinkedRows as index;
ghost use Rattle.pl_record.specs.Rows as spec;

use crate::linked::Linked;
use pl_base::{Mark, NoMemory, OriginRow, PageId, Slot, Steps, Txt};
use pl_record::{Place, read_place, read_total};
use pl_text::load;
use std::sync::ledger::Ledger;

impl Linked {
    ghost use Rattle.pl_linked.specs.Linked.{kept_of};

    // The row of a page that is there.
    fn place_of<L: Ledger>(&self, page: PageId, steps: &mut Steps<L>) -> Place
        requires { has_page (kept_of self.now) page ≡ true }
        ensures row { IsSomeAnd (index.slot_at self.now.slots.pages.entries page.0) (λ slot.
            spec.row_in slot self.now.slots.arena ≡ Some (spec.place_row result)) }
        ensures counted { steps.new ≡ steps.old + 1 }
    {
        match self.slots.pages.slot_at(page.0) {
            Some(slot) => read_place(&self.slots.arena, slot, steps),
            None => unreachable!(),
        }
    }

    /// The next page by id, or the first one.
    pub fn page_after<L: Ledger>(
        &self,
        page: Option<PageId>,
        steps: &mut Steps<L>,
    ) -> Option<PageId>
        ensures next { result ≡ page_behind (kept_of self.now) page }
        ensures cost { steps.new ≤ steps.old + most_reads }
    {
        let id = match page {
            Some(page) => page.0,
            None => 0,
        };
        match self.slots.pages.id_behind(id) {
            Some(id) => Some(PageId(id)),
            None => None,
        }
    }

    pub fn page_at<L: Ledger>(&self, page: PageId, steps: &mut Steps<L>) -> Option<Mark>
        ensures mark { result ≡ option_map mark_of (page_at (kept_of self.now) page) }
        ensures cost { steps.new ≤ steps.old + most_reads }
    {
        let slot = self.slots.pages.slot_at(page.0)?;
        Some(read_place(&self.slots.arena, slot, steps).mark)
    }

    pub fn url<L: Ledger>(&self, page: PageId, steps: &mut Steps<L>) -> Result<Txt, NoMemory>
        requires { has_page (kept_of self.now) page ≡ true }
        ensures url { IfOk result (λ url. Some url ≡ url_of (kept_of self.now) page) }
    {
        let url = self.place_of(page, steps).url;
        load(self.alloc, &self.slots.arena, url.slot, url.length, steps)
    }

    pub fn title<L: Ledger>(&self, page: PageId, steps: &mut Steps<L>) -> Result<Txt, NoMemory>
        requires { has_page (kept_of self.now) page ≡ true }
        ensures title { IfOk result (λ title. Some title ≡ title_of (kept_of self.now) page) }
    {
        let title = self.place_of(page, steps).title;
        load(
            self.alloc,
            &self.slots.arena,
            title.slot,
            title.length,
            steps,
        )
    }

    pub fn origin_of<L: Ledger>(&self, page: PageId, steps: &mut Steps<L>) -> Slot
        requires { has_page (kept_of self.now) page ≡ true }
        ensures origin { Some result ≡ origin_of (kept_of self.now) page }
        ensures cost { steps.new ≤ steps.old + most_reads }
    {
        self.place_of(page, steps).origin
    }

    pub fn origin_at<L: Ledger>(&self, origin: Slot, steps: &mut Steps<L>) -> OriginRow
        requires { has_origin (kept_of self.now) origin ≡ true }
        ensures total { Some result.total ≡ total_at (kept_of self.now) origin }
        ensures cost { steps.new ≤ steps.old + most_reads }
    {
        OriginRow {
            total: read_total(&self.slots.arena, origin, steps),
        }
    }
}
