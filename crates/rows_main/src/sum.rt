use pl_base::{ItemId, PageId, Txt, VisitId};

/// A sum of what rows answered, which tells answers in another order apart.
#[derive(Clone, Copy, Debug, PartialEq, Eq)]
pub struct Sum {
    sum: u64,
}

impl Sum {
    pub fn new() -> Self {
        Sum { sum: 0 }
    }

    pub fn total(self) -> u64 {
        self.sum
    }

    pub fn add(&mut self, number: u64) {
        self.sum = self.sum.wrapping_mul(31).wrapping_add(number);
    }

    pub fn page(&mut self, page: Option<PageId>) {
        self.add(page.map_or(0, |page| u64::from(page.0)));
    }

    pub fn visit(&mut self, visit: Option<VisitId>) {
        self.add(visit.map_or(0, |visit| u64::from(visit.0)));
    }

    pub fn item(&mut self, item: Option<ItemId>) {
        self.add(item.map_or(0, |item| u64::from(item.0)));
    }

    /// Adds the length of a text and its last byte.
    pub fn text(&mut self, text: &Txt) {
        let bytes = text.as_str().as_bytes();
        self.add(bytes.len() as u64);
        if let Some(last) = bytes.last() {
            self.add(u64::from(*last));
        }
    }
}
