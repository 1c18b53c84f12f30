use crate::{Micros, PageId, Transition, VisitId};

/// What is kept of a page beside its texts: its frecency, its `visit_count`, and its two marks.
#[derive(Clone, Copy, Debug, PartialEq, Eq)]
pub struct Mark {
    pub frecency: i64,
    pub count: u32,
    /// Whether its address was ever typed while the page stands.
    pub typed: bool,
    /// Whether it is kept out of lists of history.
    pub hidden: bool,
}

/// What is kept of an origin.
#[derive(Clone, Copy, Debug, PartialEq, Eq)]
pub struct OriginRow {
    /// The sum of the positive frecencies of its pages.
    pub total: u64,
}

/// A visit without its id.
#[derive(Clone, Copy, Debug, PartialEq, Eq)]
pub struct VisitRow {
    pub page: PageId,
    pub date: Micros,
    pub transition: Transition,
    /// The visit that it came from.
    pub source: Option<VisitId>,
}
