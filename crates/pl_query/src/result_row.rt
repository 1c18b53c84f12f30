use pl_base::{Micros, Txt};

/// A row of an answer.
#[derive(Debug, PartialEq, Eq, Drop)]
pub struct ResultRow {
    /// The id of the page, visit or bookmark.
    pub id: u32,
    /// The URL of the page.
    pub url: Txt,
    /// The title of the page, or of the bookmark.
    pub title: Txt,
    /// The date of the visit, or of the latest visit to the page.
    pub date: Option<Micros>,
    /// The `visit_count` of the page.
    pub count: u32,
    /// The frecency of the page.
    pub frecency: i64,
    /// The tags of the page, in the order of their folds and joined by commas.
    pub tags: Txt,
}
