// Pages and their origins, changed.
mod insert;
mod marks;
mod remove;
mod titles;

ghost use Rattle.std.specs.Prelude.{◌≡◌, true, Some};
ghost use Rattle.pl_base.specs.Rows.{has_page};
ghost use Rattle.pl_record.specs.LinkedRows as index;

use crate::slotted::Slotted;
use pl_base::{PageId, Slot};

impl Slotted {
    ghost use Rattle.pl_slotted.specs.Slotted.{kept_of};

    // The slot of a page that is there.
    pub(crate) fn page_slot(&self, page: PageId) -> Slot
        requires { has_page (kept_of self.now) page ≡ true }
        ensures { index.slot_at self.now.pages.entries page.0 ≡ Some result }
    {
        match self.pages.slot_at(page.0) {
            Some(slot) => slot,
            None => unreachable!(),
        }
    }
}
