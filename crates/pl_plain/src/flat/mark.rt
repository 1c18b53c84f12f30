ghost use Rattle.std.specs.Prelude.{◌≡◌, map};
ghost use Rattle.std.specs.List.Sorted.{IsStrictlyIncreasing};
ghost use Rattle.pl_plain.specs.FlatRows.{marked_row, flat_page_ids};

use crate::flat::row::FlatPage;
use crate::flat::search::page_index;
use pl_base::{Mark, PageId};

/// Gives a page its mark.
pub fn mark_page(pages: &mut [FlatPage], id: PageId, mark: Mark)
    requires { IsStrictlyIncreasing (flat_page_ids pages.old) }
    ensures { pages.new ≡ map (marked_row id mark) pages.old }
{
    if let Some(index) = page_index(pages, id) {
        pages[index].set_mark(mark);
    }
}
