ghost use Rattle.std.specs.Prelude.{◌≡◌, ◌≢◌, ◌≤◌, ◌<◌, ◌+◌, ℕ, List, length};
ghost use Rattle.std.specs.Prelude.{true, IfOk, OnErr, OnOk};
ghost use Rattle.std.specs.List.{All};
ghost use Rattle.pl_base.specs.Address.{is_store_url};
ghost use Rattle.pl_base.specs.Good.{end_of_ids};
ghost use Rattle.pl_base.specs.Live.{slot_limit};
ghost use Rattle.pl_base.specs.Rows.{KeptPage, live_with_page, with_new_page};
ghost use Rattle.pl_plain.specs.Place.{IsSlotOf, grown};

use crate::Flat;
use crate::flat::row::FlatPage;
use pl_base::{NoMemory, PageId, Slot, Txt, chunks};

// Where there are to be so many origins, the last one may be new and has no total yet.
fn grow(totals: &mut Vec<u64>, origins: u32) -> Result<(), NoMemory>
    requires { origins ≤ length totals.old.items + 1 }
    ensures grown { OnOk result (totals.new.items ≡ grown totals.old.items origins) }
    ensures same { OnErr result (totals.new.items ≡ totals.old.items) }
{
    if totals.len() < origins as usize {
        totals.push(0)?;
    }
    Ok(())
}

impl Flat {
    ghost use Rattle.pl_plain.specs.Flat.{kept_of};
    ghost use Rattle.pl_plain.specs.FlatRows.{origins_from};

    /// A new page whose origin has this name, where there are so many origins with it.
    pub fn add_page(&mut self, url: &str, origin: Slot, origins: u32) -> Result<PageId, NoMemory>
        requires url { is_store_url url.now ≡ true }
        requires absent { All (λ (p : KeptPage). p.page.url ≢ url.now) (kept_of self.old).pages }
        requires place { IsSlotOf (kept_of self.old) (length self.old.totals.items)
            url.now origin origins }
        requires id { self.old.ids.page < end_of_ids }
        requires live { live_with_page url.now (kept_of self.old) ≤ slot_limit }
        ensures page { IfOk result (λ page. page.0 ≡ self.old.ids.page) }
        ensures kept { OnOk result (kept_of self.new
            ≡ record (with_new_page url.now origin (kept_of self.old))
            { origins = origins_from (grown self.old.totals.items origins) }) }
    {
        let id = PageId(self.ids.page);
        let page = FlatPage {
            id,
            url: Txt::copied(self.alloc, url)?,
            title: Txt::copied(self.alloc, "")?,
            typed: false,
            origin,
            frecency: 0,
            count: 0,
            hidden: false,
        };
        let more = origins - self.totals.len() as u32;
        self.pages.reserve(1)?;
        grow(&mut self.totals, origins)?;
        self.pages.push(page)?;
        self.ids.page += 1;
        self.live += u64::from(more) + 1 + chunks(url);
        Ok(id)
    }
}
