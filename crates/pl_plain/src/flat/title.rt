ghost use Rattle.std.specs.Prelude.{◌≡◌, ◌≤◌, length, map, true, OnOk};
ghost use Rattle.std.specs.List.Sorted.{IsStrictlyIncreasing};
ghost use Rattle.pl_base.specs.Good.{longest_title};
ghost use Rattle.pl_base.specs.Live.{slot_limit};
ghost use Rattle.pl_base.specs.Rows.{has_page, live_with_title, with_title};
ghost use Rattle.pl_plain.specs.FlatRows.{flat_page_ids, titled_row};

use crate::Flat;
use crate::flat::row::FlatPage;
use crate::flat::search::{find_page, page_index};
use pl_base::{NoMemory, PageId, Txt, chunks};

// Gives a page its title.
fn title_page(pages: &mut [FlatPage], id: PageId, title: Txt)
    requires { IsStrictlyIncreasing (flat_page_ids pages.old) }
    ensures { pages.new ≡ map (titled_row id title) pages.old }
{
    if let Some(index) = page_index(pages, id) {
        pages[index].title = title;
    }
}

impl Flat {
    ghost use Rattle.std.specs.Prelude.{ℕ, List};
    ghost use Rattle.pl_plain.specs.Flat.{kept_of};

    /// Gives the page with this id a title.
    pub(crate) fn give_title(&mut self, id: PageId, title: &str) -> Result<(), NoMemory>
        requires page { has_page (kept_of self.old) id ≡ true }
        requires title { length title.now ≤ longest_title }
        requires live { live_with_title id title.now (kept_of self.old) ≤ slot_limit }
        ensures kept { OnOk result (kept_of self.new ≡ with_title id title.now (kept_of self.old)) }
    {
        let text = Txt::copied(self.alloc, title)?;
        let old = chunks(find_page(&self.pages, id).unwrap().title.as_str());
        title_page(&mut self.pages, id, text);
        self.live = self.live - old + chunks(title);
        Ok(())
    }
}
