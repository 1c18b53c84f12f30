ghost use Rattle.std.specs.Prelude.{◌≡◌};
ghost use Rattle.pl_step.specs.Commands.{is_change};

use pl_base::{Day, ItemId, Micros, Transition, Txt, VisitId};
use pl_link::Canon;
use pl_nbread::Tree;
use pl_place::Query;
use pl_tree::Place;
use pl_words::TagName;

/// What a line of the script or a bookmark file asks for.
#[derive(Debug, Drop)]
pub enum Command {
    /// The store's day, which is never one before.
    Day {
        day: Day,
    },
    /// A visit to an address.
    Visit {
        url: Canon,
        transition: Transition,
        date: Micros,
        /// The visit that it came from.
        source: Option<VisitId>,
    },
    /// A title for the page of an address, which is cut where it is too long.
    Title {
        url: Canon,
        text: Txt,
    },
    /// What is known of the page of an address.
    Page {
        url: Canon,
    },
    /// What is known of the origin of an address.
    Origin {
        url: Canon,
    },
    /// How much the store holds.
    Stats,
    /// A visit goes.
    Unvisit {
        visit: VisitId,
    },
    /// All visits to the page of an address go.
    Forget {
        url: Canon,
    },
    /// The visits of the days before this one go.
    Expire {
        day: Day,
    },
    /// The pages that no item has go, the stalest first, until there are n pages.
    Trim {
        n: u32,
    },
    /// A new folder of the bookmark tree.
    Folder {
        parent: ItemId,
        place: Place,
        title: Txt,
        date: Micros,
    },
    /// A new bookmark of an address, whose page is made where it is missing.
    Bookmark {
        parent: ItemId,
        place: Place,
        url: Canon,
        title: Txt,
        date: Micros,
    },
    /// A new separator.
    Separator {
        parent: ItemId,
        place: Place,
        date: Micros,
    },
    /// An item goes to another place.
    Move {
        item: ItemId,
        parent: ItemId,
        place: Place,
        date: Micros,
    },
    /// A title for an item, which is cut where it is too long.
    Retitle {
        item: ItemId,
        title: Txt,
        date: Micros,
    },
    /// An item goes, with all below it.
    Remove {
        item: ItemId,
    },
    /// The page of an address gets a tag, and is made where it is missing.
    Tag {
        url: Canon,
        name: TagName,
        date: Micros,
    },
    /// The page of an address loses a tag.
    Untag {
        url: Canon,
        name: TagName,
    },
    /// The children of a folder.
    List {
        item: ItemId,
    },
    /// The rows that answer a query.
    Query {
        query: Query,
    },
    /// The canonical text of a query.
    Place {
        query: Query,
    },
    /// The pages that the address bar offers for a text, so many at the most.
    Bar {
        max: u32,
        text: Txt,
    },
    /// The group of hosts that the address bar fills in behind a text.
    Fill {
        text: Txt,
    },
    /// The bookmarks of a tree, behind those of each root. Its lists are well formed.
    Import(Tree),
    /// A tree in place of all bookmarks and tags. Its lists are well formed.
    Restore(Tree),
}

impl Command {
    /// Whether a command of this kind may change the store.
    pub fn is_change(&self) -> bool
        ensures { result ≡ is_change self.now }
    {
        match self {
            Command::Day { .. }
            | Command::Visit { .. }
            | Command::Title { .. }
            | Command::Unvisit { .. }
            | Command::Forget { .. }
            | Command::Expire { .. }
            | Command::Trim { .. }
            | Command::Folder { .. }
            | Command::Bookmark { .. }
            | Command::Separator { .. }
            | Command::Move { .. }
            | Command::Retitle { .. }
            | Command::Remove { .. }
            | Command::Tag { .. }
            | Command::Untag { .. }
            | Command::Import(_)
            | Command::Restore(_) => true,
            Command::Page { .. }
            | Command::Origin { .. }
            | Command::Stats
            | Command::List { .. }
            | Command::Query { .. }
            | Command::Place { .. }
            | Command::Bar { .. }
            | Command::Fill { .. } => false,
        }
    }
}
