ghost use Rattle.std.specs.Prelude.{◌≡◌};
ghost use Rattle.pl_step.specs.Refused.{is_refused};

use pl_base::{Day, ItemId, ItemKind, Micros, PageId, Refusal, Seq, Txt, VisitId};
use pl_query::ResultRow;

/// The answer to a command.
#[derive(Debug, PartialEq, Eq, Drop)]
pub enum Reply {
    /// The store's day, and how many pages have another frecency than before.
    Day {
        day: Day,
        changed: u32,
    },
    /// The visit that was added, its page, and the page's frecency from then on.
    Visit {
        visit: VisitId,
        page: PageId,
        frecency: i64,
    },
    /// The change was made.
    Done,
    /// What is known of a page.
    Page {
        id: PageId,
        frecency: i64,
        /// Its `visit_count`.
        count: u32,
        /// The date of its latest visit.
        last: Option<Micros>,
        typed: bool,
        hidden: bool,
        bookmarked: bool,
        url: Txt,
        title: Txt,
        /// Its tags, in the order of their folds and joined by commas.
        tags: Txt,
    },
    /// What is known of an origin.
    Origin {
        /// The scheme with `://` where an authority follows, and with `:` elsewhere.
        prefix: Txt,
        /// The host with its port.
        host: Txt,
        /// The host without its port, its characters reversed, and a full stop.
        reversed: Txt,
        /// The sum of the positive frecencies of its pages.
        total: u64,
        /// How many pages it has.
        pages: u32,
        /// Whether the group of its host passes: no other is filled in by the address bar.
        passes: bool,
    },
    /// How much the store holds.
    Stats {
        pages: u32,
        visits: u32,
        /// The items of the bookmark tree, the six roots among them.
        items: u32,
        /// How many origins have a total.
        origins: u32,
        /// The sum of these totals.
        sum: u64,
        /// How many slots of 128 bytes the store takes.
        slots: u64,
    },
    /// How many visits and pages went.
    Removed {
        visits: u32,
        pages: u32,
    },
    /// The item that was inserted.
    Item(ItemId),
    /// The children of a folder, in order.
    List(Seq<ListRow>),
    /// The rows that answer a query, in order.
    Rows(Seq<ResultRow>),
    /// The canonical text of a query.
    Place(Txt),
    /// The pages that the address bar offers, the best first.
    Bar(Seq<BarRow>),
    /// A group of hosts, by its name, and the sum of the totals of its origins.
    Fill {
        group: Txt,
        total: u64,
    },
    /// No group of hosts begins with the text.
    NoFill,
    /// How much was imported.
    Imported {
        /// Bookmarks, folders and separators.
        items: u32,
        /// Tags that pages got.
        tags: u32,
        /// Bookmarks that were left out, since their address is no URL of the store.
        skipped: u32,
    },
    /// How much took the place of all bookmarks and tags.
    Restored {
        /// Bookmarks, folders and separators.
        items: u32,
        /// Tags that pages got.
        tags: u32,
        /// Values of the backup that were left out, since they are no nodes or their address is no
        /// URL of the store.
        skipped: u32,
    },
    Refused(Refusal),
}

impl Reply {
    /// Whether the command was refused, which changed nothing then.
    pub fn is_refused(&self) -> bool
        ensures { result ≡ is_refused self.now }
    {
        matches!(self, Reply::Refused(_))
    }
}

/// A child of a folder, as it is listed.
#[derive(Debug, PartialEq, Eq, Drop)]
pub struct ListRow {
    pub kind: ItemKind,
    pub id: ItemId,
    pub title: Txt,
    /// The address of a bookmark.
    pub url: Option<Txt>,
}

/// A page that the address bar offers.
#[derive(Debug, PartialEq, Eq, Drop)]
pub struct BarRow {
    pub id: PageId,
    pub frecency: i64,
    pub url: Txt,
    /// The page's own title.
    pub title: Txt,
}
