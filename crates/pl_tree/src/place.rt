/// A place in the list of a folder's children.
#[derive(Clone, Copy, Debug, PartialEq, Eq)]
pub enum Place {
    /// Behind all of them.
    End,
    /// Behind the first so many.
    Number(u32),
}
