ghost use Rattle.std.specs.Prelude.{◌≡◌, false};
ghost use Rattle.pl_base.specs.Rows.{mark_of};
ghost use Rattle.pl_plain.specs.FlatRows.{page_of, renamed_row, with_mark_of};

use pl_base::{Mark, PageId, Slot, Txt};

/// A page, and what was computed of it last.
#[derive(Debug, Drop)]
pub struct FlatPage {
    pub id: PageId,
    pub url: Txt,
    pub title: Txt,
    pub typed: bool,
    /// The name of its origin.
    pub origin: Slot,
    pub frecency: i64,
    /// Its `visit_count`.
    pub count: u32,
    pub hidden: bool,
}

impl FlatPage {
    pub fn set_mark(&mut self, mark: Mark)
        ensures { self.new ≡ with_mark_of mark self.old }
    {
        self.frecency = mark.frecency;
        self.count = mark.count;
        self.typed = mark.typed;
        self.hidden = mark.hidden;
    }

    /// An origin that has the last name has this name from then on.
    pub fn rename(&mut self, last: u32, name: Slot)
        ensures { self.new ≡ renamed_row false last name self.old }
    {
        if self.origin.0 == last {
            self.origin = name;
        }
    }

    pub fn mark(&self) -> Mark
        ensures { result ≡ mark_of (page_of self.now) }
    {
        Mark {
            frecency: self.frecency,
            count: self.count,
            typed: self.typed,
            hidden: self.hidden,
        }
    }
}
