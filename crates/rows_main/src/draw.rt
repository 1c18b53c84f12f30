use pl_base::{Ids, ItemId, PageId, VisitId};

/// Ids that are drawn among those that were given, by a linear congruential generator.
#[derive(Clone, Copy, Debug, PartialEq, Eq)]
pub struct Draw {
    state: u64,
    next: Ids,
}

impl Draw {
    /// Of the ids below these.
    pub fn below(next: Ids) -> Self {
        Draw { state: 1, next }
    }

    // A number from the first one on, below the end.
    fn number(&mut self, first: u32, end: u32) -> u32 {
        self.state = self
            .state
            .wrapping_mul(6_364_136_223_846_793_005)
            .wrapping_add(1_442_695_040_888_963_407);
        let count = end.saturating_sub(first);
        if count == 0 {
            return first;
        }
        first.wrapping_add((self.state >> 32) as u32 % count)
    }

    pub fn page(&mut self) -> PageId {
        PageId(self.number(Ids::OPENING.page, self.next.page))
    }

    pub fn visit(&mut self) -> VisitId {
        VisitId(self.number(Ids::OPENING.visit, self.next.visit))
    }

    pub fn item(&mut self) -> ItemId {
        ItemId(self.number(Ids::OPENING.item, self.next.item))
    }
}
