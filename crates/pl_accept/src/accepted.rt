use pl_base::Slot;
use std::collections::BTreeMap;

/// The rows of a file that was accepted: the slots of its pages, visits and items by the numbers of
/// their ids.
#[derive(Drop)]
pub struct Accepted {
    pub pages: BTreeMap<u32, Slot>,
    pub visits: BTreeMap<u32, Slot>,
    pub items: BTreeMap<u32, Slot>,
}
