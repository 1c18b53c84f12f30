use crate::Place;
use pl_base::ItemId;

/// A change of the bookmark tree, as far as it may be refused.
#[derive(Clone, Copy, Debug, PartialEq, Eq)]
pub enum TreeChange {
    Insert {
        parent: ItemId,
        place: Place,
    },
    Move {
        item: ItemId,
        parent: ItemId,
        place: Place,
    },
    Retitle {
        item: ItemId,
    },
    Remove {
        item: ItemId,
    },
}
