// Sums by the names of origins.
ghost use Rattle.std.specs.Prelude.{◌≡◌, ◌==◌, ◌+◌, ◌<◌, ◌^◌, ℕ, OnOk, if◌then◌else◌};
ghost use Rattle.pl_sound.specs.Sums.{sum_in};

use pl_base::{NoMemory, Slot};
use std::alloc::Global;
use std::collections::BTreeMap;

/// A sum for each name of an origin.
#[derive(Drop)]
pub(crate) struct Sums {
    by_name: BTreeMap<u32, u64>,
}

impl Sums {
    /// Each sum is 0.
    pub fn new(alloc: Global) -> Sums
        ensures { (name : ℕ) → sum_in result name ≡ 0 }
    {
        Sums {
            by_name: BTreeMap::new(alloc),
        }
    }

    pub fn of(&self, origin: Slot) -> u64
        ensures { result ≡ sum_in self.now origin.0 }
    {
        self.by_name.get(&origin.0).copied().unwrap_or(0)
    }

    /// A share more for an origin.
    pub fn add(&mut self, origin: Slot, share: u64) -> Result<(), NoMemory>
        requires { sum_in self.old origin.0 + share < 2 ^ 64 }
        ensures { OnOk result ((name : ℕ) → sum_in self.new name
            ≡ sum_in self.old name + (if origin.0 == name then share else 0)) }
    {
        let sum = self.of(origin) + share;
        self.by_name.insert(origin.0, sum)?;
        Ok(())
    }
}
