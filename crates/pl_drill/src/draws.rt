/// What a line is made of.
#[derive(Clone, Copy, Debug)]
pub struct Draws {
    /// Which line it is, below 16.
    pub kind: u64,
    /// The number of its host, below 50.
    pub host: u64,
    /// The number of its path, below 200.
    pub path: u64,
    /// The number of its tag, below 9, and one less than that of its transition.
    pub tag: u64,
}
