// A page that comes, with its origin where that is new.
ghost use Rattle.std.specs.Prelude.{◌≡◌, ◌≢◌, ◌≤◌, ◌<◌, ◌+◌, ◌++◌, ◌∷◌, [], ◌^◌, ℕ, List, Some};
ghost use Rattle.std.specs.Prelude.{None, true, IfOk, OnErr, OnOk};
ghost use Rattle.std.specs.List.{All, AllByRecursion};
ghost use Rattle.pl_base.specs.declared.id.Slot.{Slot as Number};
ghost use Rattle.pl_base.specs.Address.{is_store_url};
ghost use Rattle.pl_base.specs.Good.{end_of_ids};
ghost use Rattle.pl_base.specs.Live.{chunks, slot_limit};
ghost use Rattle.pl_base.specs.Rows.{IsOriginOf, KeptPage, WithPageIn, live_with_page};
ghost use Rattle.pl_base.specs.Touched.{IsAtMostMore, row_pages};
ghost use Rattle.pl_record.specs.ChainMap as maps;
ghost use Rattle.pl_record.specs.SlotChanges as spec;
ghost use Rattle.pl_slot.specs.declared.kind.SlotKind.TheVariants as kinds;
ghost use Rattle.pl_slot.specs.declared.links.Rail.TheVariants.{OriginPages};
ghost use Rattle.pl_slot.specs.Arena as slots;
ghost use Rattle.pl_slot.specs.Links.{kind_at};
ghost use Rattle.pl_text.specs.Chunks.{chunk_count};

use crate::slotted::Slotted;
use pl_base::{NoMemory, PageId, Slot, Steps};
use pl_byid::SlotIndex;
use pl_record::{TextAt, insert_origin, insert_place, remove_origin};
use pl_slot::Arena;
use std::sync::ledger::Ledger;

impl Slotted {
    ghost use Rattle.pl_slotted.specs.Slotted.{IsBase, kept_of, pending_of};

    /// A new page with the next id, in the given origin or in a new one. Its URL is a URL of the
    /// store that no page has.
    pub fn insert_page<L: Ledger>(
        &mut self,
        url: &str,
        origin: Option<Slot>,
        steps: &mut Steps<L>,
    ) -> Result<PageId, NoMemory>
        requires url { is_store_url url.now ≡ true }
        requires absent { All (λ (p : KeptPage). p.page.url ≢ url.now) (kept_of self.old).pages }
        requires origin { IsOriginOf (kept_of self.old) url.now origin }
        requires id { (kept_of self.old).ids.page < end_of_ids }
        requires live { live_with_page url.now (kept_of self.old) ≤ slot_limit }
        ensures page { IfOk result (λ page. page.0 ≡ (kept_of self.old).ids.page) }
        ensures kept { OnOk result
            (WithPageIn url.now origin (kept_of self.old) (kept_of self.new)) }
        ensures pages { OnOk result (IsAtMostMore (row_pages + chunks url.now)
            (pending_of self.old) (pending_of self.new)) }
        ensures base { OnOk result ((bytes : List ℕ)
            → IsBase self.old bytes → IsBase self.new bytes) }
    {
        match origin {
            Some(origin) => self.insert_in(url, origin, steps),
            None => self.insert_apart(url, steps),
        }
    }

    // A page in an origin that is there.
    fn insert_in<L: Ledger>(
        &mut self,
        url: &str,
        origin: Slot,
        steps: &mut Steps<L>,
    ) -> Result<PageId, NoMemory>
        requires url { is_store_url url.now ≡ true }
        requires absent { All (λ (p : KeptPage). p.page.url ≢ url.now) (kept_of self.old).pages }
        requires origin { IsOriginOf (kept_of self.old) url.now (Some origin) }
        requires id { (kept_of self.old).ids.page < end_of_ids }
        requires live { live_with_page url.now (kept_of self.old) ≤ slot_limit }
        ensures page { IfOk result (λ page. page.0 ≡ (kept_of self.old).ids.page) }
        ensures kept { OnOk result
            (WithPageIn url.now (Some origin) (kept_of self.old) (kept_of self.new)) }
        ensures pages { OnOk result (IsAtMostMore (row_pages + chunks url.now)
            (pending_of self.old) (pending_of self.new)) }
        ensures base { OnOk result ((bytes : List ℕ)
            → IsBase self.old bytes → IsBase self.new bytes) }
    {
        let page = PageId(self.arena.ids().page);
        place_page(&mut self.arena, &mut self.pages, page, url, origin, steps)?;
        count_page(&mut self.arena, url.len() as u32, 0);
        Ok(page)
    }

    // A page in an origin of its own.
    fn insert_apart<L: Ledger>(
        &mut self,
        url: &str,
        steps: &mut Steps<L>,
    ) -> Result<PageId, NoMemory>
        requires url { is_store_url url.now ≡ true }
        requires absent { All (λ (p : KeptPage). p.page.url ≢ url.now) (kept_of self.old).pages }
        requires origin { IsOriginOf (kept_of self.old) url.now None }
        requires id { (kept_of self.old).ids.page < end_of_ids }
        requires live { live_with_page url.now (kept_of self.old) ≤ slot_limit }
        ensures page { IfOk result (λ page. page.0 ≡ (kept_of self.old).ids.page) }
        ensures kept { OnOk result
            (WithPageIn url.now None (kept_of self.old) (kept_of self.new)) }
        ensures pages { OnOk result (IsAtMostMore (row_pages + chunks url.now)
            (pending_of self.old) (pending_of self.new)) }
        ensures base { OnOk result ((bytes : List ℕ)
            → IsBase self.old bytes → IsBase self.new bytes) }
    {
        let page = PageId(self.arena.ids().page);
        let origin = insert_origin(&mut self.arena, steps)?;
        match place_page(&mut self.arena, &mut self.pages, page, url, origin, steps) {
            Ok(()) => {
                count_page(&mut self.arena, url.len() as u32, 1);
                Ok(page)
            }
            Err(error) => {
                remove_origin(&mut self.arena, origin, steps);
                Err(error)
            }
        }
    }
}

// Puts a new page into its slots, and its slot into the index, behind all others.
fn place_page<L: Ledger>(
    arena: &mut Arena,
    pages: &mut SlotIndex,
    page: PageId,
    url: &str,
    origin: Slot,
    steps: &mut Steps<L>,
) -> Result<(), NoMemory>
    requires last { AllByRecursion (λ (e : ℕ × Number). e.0 < page.0) pages.old.entries }
    requires origin { kind_at origin.0 arena.old ≡ Some kinds.Origin }
    requires few { slots.live_count arena.old + 1 + chunks url.now ≤ slot_limit }
    requires chained { (chains : maps.ChainMap) × maps.AreChains chains arena.old
        × maps.AreApart OriginPages chains }
    ensures placed { OnOk result ((slot : Number)
        × spec.InsertsPlace page url.now origin slot arena.old arena.new
        × (pages.new.entries ≡ pages.old.entries ++ (page.0, slot) ∷ [])) }
    ensures err { OnErr result (spec.KeepsAll arena.old arena.new) }
    ensures entries { OnErr result (pages.new.entries ≡ pages.old.entries) }
{
    pages.push(page.0, Slot(0))?;
    match insert_place(arena, page, url, origin, steps) {
        Ok(slot) => {
            pages.set(page.0, slot);
            Ok(())
        }
        Err(error) => {
            pages.remove(page.0);
            Err(error)
        }
    }
}

// The next id of a page, and the live slots with those of a new page and so many more.
fn count_page(arena: &mut Arena, length: u32, more: u32)
    requires id { (slots.header_of arena.old).ids.page + 1 < 2 ^ 32 }
    requires live { (slots.header_of arena.old).live + 1 + chunk_count length + more < 2 ^ 32 }
    ensures { spec.CountsPage (1 + chunk_count length + more) arena.old arena.new }
{
    prove!(arena.pages() > 0);
    let url = TextAt {
        slot: Slot(0),
        length,
    };
    let live = arena.live() + 1 + url.slots() + more;
    let mut ids = arena.ids();
    ids.page += 1;
    arena.set_ids(&ids);
    arena.set_live(live);
}
