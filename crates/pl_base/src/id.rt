ghost use Rattle.std.specs.Prelude.{◌≡◌};
ghost use Rattle.pl_base.specs.Refusal.{id_kind_number};

/// Names a page. Ids are at least 1 and are never used again.
#[derive(Clone, Copy, Debug, PartialEq, Eq, PartialOrd, Ord, Hash)]
pub struct PageId(pub u32);

/// Names a visit. Ids are at least 1 and are never used again.
#[derive(Clone, Copy, Debug, PartialEq, Eq, PartialOrd, Ord, Hash)]
pub struct VisitId(pub u32);

/// Names an item of the bookmark tree. The roots have 1 to 6, and other items 7 and above.
#[derive(Clone, Copy, Debug, PartialEq, Eq, PartialOrd, Ord, Hash)]
pub struct ItemId(pub u32);

impl ItemId {
    /// `tags________`, whose children are the tag folders.
    pub const TAGS: ItemId = ItemId(4);
}

/// Names an origin, a prefix with a host, among those of the same rows. 0 names none.
#[derive(Clone, Copy, Debug, PartialEq, Eq, PartialOrd, Ord, Hash)]
pub struct Slot(pub u32);

/// The next ids of pages, visits and items.
#[derive(Clone, Copy, Debug, PartialEq, Eq, Hash)]
pub struct Ids {
    pub page: u32,
    pub visit: u32,
    pub item: u32,
}

impl Ids {
    /// The id that is never given: a store whose next id is this has given all others.
    pub const END: u32 = u32::MAX;

    /// The next ids of a store that has only the six roots.
    pub const OPENING: Ids = Ids {
        page: 1,
        visit: 1,
        item: 7,
    };
}

/// What an id names.
#[derive(Clone, Copy, Debug, PartialEq, Eq, Hash)]
pub enum IdKind {
    Page = 1,
    Visit = 2,
    Item = 3,
}

impl IdKind {
    /// The number by which replies name the kind.
    pub fn number(self) -> u8
        ensures { result ≡ id_kind_number self }
    {
        self as u8
    }
}
