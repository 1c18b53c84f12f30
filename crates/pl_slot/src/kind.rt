ghost use Rattle.std.specs.Prelude.{◌≡◌};
ghost use Rattle.pl_slot.specs.SlotKind.{slot_kind_at, slot_kind_number};

/// What a slot holds.
#[derive(Clone, Copy, Debug, PartialEq, Eq, Hash)]
pub enum SlotKind {
    Free = 0,
    Origin = 1,
    Place = 2,
    Visit = 3,
    Item = 4,
    Text = 5,
}

impl SlotKind {
    /// The kind with this number, which is the first byte of its slots.
    pub fn from_number(number: u8) -> Option<Self>
        ensures { result ≡ slot_kind_at number }
    {
        match number {
            0 => Some(SlotKind::Free),
            1 => Some(SlotKind::Origin),
            2 => Some(SlotKind::Place),
            3 => Some(SlotKind::Visit),
            4 => Some(SlotKind::Item),
            5 => Some(SlotKind::Text),
            _ => None,
        }
    }

    pub fn number(self) -> u8
        ensures { result ≡ slot_kind_number self }
    {
        self as u8
    }
}

/// What a live slot holds whose chain the header has: all live slots of a kind but texts are in
/// one.
#[derive(Clone, Copy, Debug, PartialEq, Eq, Hash)]
pub enum LiveKind {
    Origin = 1,
    Place = 2,
    Visit = 3,
    Item = 4,
}
