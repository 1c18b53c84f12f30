ghost use Rattle.std.specs.Prelude.{◌≡◌};
ghost use Rattle.pl_place.specs.Kinds as spec;

/// The moment that a time condition counts from.
#[derive(Clone, Copy, Debug, PartialEq, Eq)]
pub enum TimeRef {
    /// The first microsecond of 1970.
    Epoch,
    /// The first microsecond of the store's day.
    Today,
    /// The last microsecond of the store's day.
    Now,
}

impl TimeRef {
    /// Its number in a text.
    pub fn number(self) -> u8
        ensures { result ≡ spec.time_ref_number self }
    {
        match self {
            TimeRef::Epoch => 0,
            TimeRef::Today => 1,
            TimeRef::Now => 2,
        }
    }

    /// The reference with this number.
    pub fn from_number(number: u64) -> Option<TimeRef>
        ensures { result ≡ spec.time_ref_at number }
    {
        match number {
            0 => Some(TimeRef::Epoch),
            1 => Some(TimeRef::Today),
            2 => Some(TimeRef::Now),
            _ => None,
        }
    }
}

/// What a query of history lists.
#[derive(Clone, Copy, Debug, PartialEq, Eq)]
pub enum ResultType {
    /// `RESULTS_AS_URI`: each page once.
    Pages,
    /// `RESULTS_AS_VISIT`: a row for each visit.
    Visits,
}

impl ResultType {
    /// Its number in a text.
    pub fn number(self) -> u8
        ensures { result ≡ spec.result_type_number self }
    {
        match self {
            ResultType::Pages => 0,
            ResultType::Visits => 1,
        }
    }

    /// What has this number.
    pub fn from_number(number: u64) -> Option<ResultType>
        ensures { result ≡ spec.result_type_at number }
    {
        match number {
            0 => Some(ResultType::Pages),
            1 => Some(ResultType::Visits),
            _ => None,
        }
    }
}

/// What a query is asked of.
#[derive(Clone, Copy, Debug, PartialEq, Eq)]
pub enum QueryType {
    /// `QUERY_TYPE_HISTORY`.
    History,
    /// `QUERY_TYPE_BOOKMARKS`.
    Bookmarks,
}

impl QueryType {
    /// Its number in a text.
    pub fn number(self) -> u8
        ensures { result ≡ spec.query_type_number self }
    {
        match self {
            QueryType::History => 0,
            QueryType::Bookmarks => 1,
        }
    }

    /// What has this number.
    pub fn from_number(number: u64) -> Option<QueryType>
        ensures { result ≡ spec.query_type_at number }
    {
        match number {
            0 => Some(QueryType::History),
            1 => Some(QueryType::Bookmarks),
            _ => None,
        }
    }
}
