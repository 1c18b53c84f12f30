ghost use Rattle.std.specs.Prelude.{◌≡◌, ◌<◌};
ghost use Rattle.pl_place.specs.Kinds as spec;

/// What rows are sorted by.
#[derive(Clone, Copy, Debug, PartialEq, Eq)]
pub enum SortKey {
    /// The fold of the title that is shown.
    Title,
    /// The date that is shown; none comes before any.
    Date,
    /// The URL of the page, byte by byte.
    Url,
    /// The page's `visit_count`.
    VisitCount,
    /// When the bookmark was added, or the page's bookmarks at the latest.
    Added,
    /// When the bookmark was modified, or the page's bookmarks at the latest.
    Modified,
    /// The fold of the page's tags.
    Tags,
    Frecency,
}

impl SortKey {
    // The code of its ascending order.
    fn ascending(self) -> u8
        ensures code { result ≡ spec.sort_number (Sort.By self Direction.Ascending) }
        ensures below { result < 22 }
    {
        match self {
            SortKey::Title => 1,
            SortKey::Date => 3,
            SortKey::Url => 5,
            SortKey::VisitCount => 7,
            SortKey::Added => 11,
            SortKey::Modified => 13,
            SortKey::Tags => 17,
            SortKey::Frecency => 21,
        }
    }
}

#[derive(Clone, Copy, Debug, PartialEq, Eq)]
pub enum Direction {
    Ascending,
    Descending,
}

/// The order of rows. Rows that are alike in it stand by ascending id, whichever the direction.
#[derive(Clone, Copy, Debug, PartialEq, Eq)]
pub enum Sort {
    /// By id alone.
    Unsorted,
    By(SortKey, Direction),
}

impl Sort {
    /// Its code, by nsINavHistoryQueryOptions: of a key the ascending order, and of the next number
    /// the descending one.
    pub fn number(self) -> u8
        ensures { result ≡ spec.sort_number self }
    {
        match self {
            Sort::Unsorted => 0,
            Sort::By(key, Direction::Ascending) => key.ascending(),
            Sort::By(key, Direction::Descending) => key.ascending() + 1,
        }
    }

    /// The order with this code.
    pub fn from_number(number: u64) -> Option<Sort>
        ensures { result ≡ spec.sort_at number }
    {
        match number {
            0 => Some(Sort::Unsorted),
            1 => Some(Sort::By(SortKey::Title, Direction::Ascending)),
            2 => Some(Sort::By(SortKey::Title, Direction::Descending)),
            3 => Some(Sort::By(SortKey::Date, Direction::Ascending)),
            4 => Some(Sort::By(SortKey::Date, Direction::Descending)),
            5 => Some(Sort::By(SortKey::Url, Direction::Ascending)),
            6 => Some(Sort::By(SortKey::Url, Direction::Descending)),
            7 => Some(Sort::By(SortKey::VisitCount, Direction::Ascending)),
            8 => Some(Sort::By(SortKey::VisitCount, Direction::Descending)),
            11 => Some(Sort::By(SortKey::Added, Direction::Ascending)),
            12 => Some(Sort::By(SortKey::Added, Direction::Descending)),
            13 => Some(Sort::By(SortKey::Modified, Direction::Ascending)),
            14 => Some(Sort::By(SortKey::Modified, Direction::Descending)),
            17 => Some(Sort::By(SortKey::Tags, Direction::Ascending)),
            18 => Some(Sort::By(SortKey::Tags, Direction::Descending)),
            21 => Some(Sort::By(SortKey::Frecency, Direction::Ascending)),
            22 => Some(Sort::By(SortKey::Frecency, Direction::Descending)),
            _ => None,
        }
    }
}
