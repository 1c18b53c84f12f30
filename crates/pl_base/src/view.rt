ghost use Rattle.std.specs.Prelude.{◌≡◌, IfOk};

use crate::{Day, Micros, NoMemory, PageId, Txt};
use std::alloc::Global;

/// What is known of a page: what the totals of origins, queries and the address bar see of it.
#[derive(Debug, PartialEq, Eq, Drop)]
pub struct View {
    pub id: PageId,
    pub url: Txt,
    pub title: Txt,
    /// The title of the page's bookmark that was modified last; empty where it has none.
    pub mark_title: Txt,
    /// Its tags, in the order of their folds and joined by commas.
    pub tags: Txt,
    /// The scheme of its URL with `://` where an authority follows, and with `:` elsewhere.
    pub prefix: Txt,
    /// The host of its URL with its port; empty where the URL has none.
    pub host: Txt,
    pub frecency: i64,
    /// Its `visit_count`.
    pub count: u32,
    /// The date of its latest visit.
    pub last: Option<Micros>,
    /// The first day after the store's on which a visit of its sample has another weight than on
    /// the day before; none up to the last day of all where the sample weighs the same to the end.
    pub due: Option<Day>,
    pub typed: bool,
    pub hidden: bool,
    pub bookmarked: bool,
    /// Whether an item has it: a bookmark or a tag.
    pub referenced: bool,
}

impl View {
    /// The same, with texts of its own.
    pub fn copied(&self, alloc: Global) -> Result<View, NoMemory>
        ensures { IfOk result (λ copy. copy ≡ self.now) }
    {
        Ok(View {
            id: self.id,
            url: Txt::copied(alloc, self.url.as_str())?,
            title: Txt::copied(alloc, self.title.as_str())?,
            mark_title: Txt::copied(alloc, self.mark_title.as_str())?,
            tags: Txt::copied(alloc, self.tags.as_str())?,
            prefix: Txt::copied(alloc, self.prefix.as_str())?,
            host: Txt::copied(alloc, self.host.as_str())?,
            frecency: self.frecency,
            count: self.count,
            last: self.last,
            due: self.due,
            typed: self.typed,
            hidden: self.hidden,
            bookmarked: self.bookmarked,
            referenced: self.referenced,
        })
    }
}
