ghost use Rattle.std.specs.Prelude.{◌≡◌};
ghost use Rattle.pl_rail.specs.Rails as rails;

use pl_base::Slot;
use pl_slot::{Link, LiveKind};

/// What has a chain: the header, of the live slots of a kind, or a slot.
#[derive(Clone, Copy, Debug, PartialEq, Eq, Hash)]
pub enum Owner {
    Header(LiveKind),
    At(Slot),
}

/// Where a slot's neighbour stands in a chain.
#[derive(Clone, Copy, Debug, PartialEq, Eq, Hash)]
pub enum Side {
    Behind,
    Before,
}

impl Side {
    /// An owner's link: from the first member on, or from the last one back.
    pub fn end_link(self) -> Link
        ensures { result ≡ rails.end_link self }
    {
        match self {
            Side::Behind => Link::First,
            Side::Before => Link::Last,
        }
    }

    /// A member's link.
    pub fn side_link(self) -> Link
        ensures { result ≡ rails.side_link self }
    {
        match self {
            Side::Behind => Link::Next,
            Side::Before => Link::Previous,
        }
    }
}
