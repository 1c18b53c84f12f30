// A page goes, and its origin with its last page.
ghost use Rattle.std.specs.Prelude.{◌≡◌, ◌≤◌, ◌<◌, ◌^◌, ◌==◌, not, false, length, map, true};
ghost use Rattle.std.specs.List.{filter};
ghost use Rattle.pl_base.specs.Good.{is_visited};
ghost use Rattle.pl_base.specs.Rows.{WithoutPage, has_page, store_of};
ghost use Rattle.pl_plain.specs.declared.flat.row.FlatPage.{FlatPage};
ghost use Rattle.pl_plain.specs.FlatRows.{has_name, renamed_row, totals_left};

use crate::Flat;
use crate::flat::row::FlatPage;
use crate::flat::search::find_page;
use pl_base::{PageId, Slot, chunks};

// The page with this id goes.
fn drop_row(pages: &mut Vec<FlatPage>, id: PageId)
    ensures { pages.new.items
        ≡ filter (λ (p : FlatPage). not (p.id.0 == id.0)) pages.old.items }
{
    pages.retain(|page| page.id.0 != id.0);
}

// Whether a page has this name as that of its origin.
fn is_in_use(pages: &[FlatPage], name: Slot) -> bool
    ensures { result ≡ has_name name pages.now }
{
    pages.iter().any(|page| page.origin.0 == name.0)
}

// The origin with the last name has this name from then on.
fn give_name(pages: &mut Vec<FlatPage>, last: u32, name: Slot)
    ensures { pages.new.items ≡ map (renamed_row false last name) pages.old.items }
{
    for page in pages.iter_mut() {
        page.rename(last, name);
    }
}

// If no page has this name, its origin goes, and the last one has the name.
fn free_name(pages: &mut Vec<FlatPage>, totals: &mut Vec<u64>, name: Slot)
    requires first { 1 ≤ name.0 }
    requires last { name.0 ≤ length totals.old.items }
    requires few { length totals.old.items < 2 ^ 32 }
    ensures totals { totals.new.items
        ≡ totals_left (has_name name pages.old.items) name totals.old.items }
    ensures pages { pages.new.items
        ≡ map (renamed_row (has_name name pages.old.items) (length totals.old.items) name)
        pages.old.items }
{
    if is_in_use(pages, name) {
        return;
    }
    give_name(pages, totals.len() as u32, name);
    totals.swap_remove(name.0 as usize - 1);
}

impl Flat {
    ghost use Rattle.std.specs.Prelude.{ℕ, List};
    ghost use Rattle.pl_plain.specs.Flat.{kept_of};

    /// Drops a page, which has no visit, and its origin with its last page.
    pub(crate) fn drop_page(&mut self, id: PageId)
        requires page { has_page (kept_of self.old) id ≡ true }
        requires unvisited { is_visited (store_of (kept_of self.old)) id ≡ false }
        ensures kept { WithoutPage id (kept_of self.old) (kept_of self.new) }
    {
        let page = find_page(&self.pages, id).unwrap();
        let origin = page.origin;
        let slots = 1 + chunks(page.url.as_str()) + chunks(page.title.as_str());
        let origins = self.totals.len();
        drop_row(&mut self.pages, id);
        free_name(&mut self.pages, &mut self.totals, origin);
        self.live -= slots + (origins - self.totals.len()) as u64;
    }
}
