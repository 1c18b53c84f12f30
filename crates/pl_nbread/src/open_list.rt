/// The folders of a store that a bookmark file has lists for.
#[derive(Clone, Copy, PartialEq, Eq)]
pub(crate) enum Root {
    Menu,
    Toolbar,
    Unfiled,
    Mobile,
}

/// A list that is open: whose nodes its own are, and how deep they stand.
#[derive(Clone, Copy, PartialEq, Eq)]
pub(crate) struct OpenList {
    pub(crate) root: Root,
    /// 0 for a child of the root.
    pub(crate) depth: u32,
}
