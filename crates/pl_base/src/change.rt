use crate::View;

/// What a command makes of one page: the view that went, the one that came, or both.
#[derive(Debug, PartialEq, Eq, Drop)]
pub struct Change {
    pub old: Option<View>,
    pub new: Option<View>,
}
