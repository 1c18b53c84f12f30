/// How a word stands in a text; what comes later stands better.
#[derive(Clone, Copy, Debug, PartialEq, Eq, PartialOrd, Ord)]
pub enum Standing {
    /// It does not stand in the text.
    Nowhere,
    /// It stands in the text, and nowhere on a boundary.
    Inside,
    /// It stands at the front of the text, or behind a byte that is no ASCII letter.
    Boundary,
}
