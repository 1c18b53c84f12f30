// What is kept of each origin, by its prefix and then its host.
ghost use Rattle.std.specs.Prelude.{◌≡◌, ◌+◌, ◌-◌, ◌<◌, ◌≤◌, ◌^◌, ℕ, List, [], Option};
ghost use Rattle.std.specs.Prelude.{IfOk, OnOk, true, bytes_eq, if◌then◌else◌, unwrap_or};
ghost use Rattle.std.specs.Option.{option_copied, option_map};
ghost use Rattle.pl_base.specs.Totals.{Origin, is_origin};
ghost use Rattle.pl_totals.specs.Held.{after, held_at, held_in, held_of, nothing, settled};

use crate::kept::{Kept, Step};
use pl_base::NoMemory;
use std::alloc::Global;
use std::collections::BTreeMap;

// The origins of one prefix, by their hosts.
#[derive(Drop)]
pub struct Hosts {
    pub map: BTreeMap<String, Kept>,
}

// All origins, by their prefixes.
#[derive(Drop)]
pub struct Origins {
    pub prefixes: BTreeMap<String, Hosts>,
}

impl Hosts {
    fn new(alloc: Global) -> Hosts
        ensures { (host : List ℕ) → held_in result host ≡ nothing }
    {
        Hosts {
            map: BTreeMap::new(alloc),
        }
    }

    fn is_empty(&self) -> bool
        ensures { result ≡ true → (host : List ℕ) → held_in self.now host ≡ nothing }
    {
        self.map.is_empty()
    }

    // The first page of an origin.
    fn begin(&mut self, alloc: Global, host: &str, step: Step) -> Result<(), NoMemory>
        requires none { held_in self.old host.now ≡ nothing }
        requires from { step.from ≡ 0 }
        ensures { OnOk result ((other : List ℕ) → held_in self.new other
            ≡ (if bytes_eq host.now other
            then settled (after step nothing)
            else held_in self.old other)) }
    {
        let mut kept = Kept::none(alloc);
        kept.apply(step)?;
        if kept.is_empty() {
            return Ok(());
        }
        let host = String::from_str(alloc, host)?;
        self.map.insert(host, kept)?;
        Ok(())
    }

    // Answers the total before.
    fn apply(&mut self, alloc: Global, host: &str, step: Step) -> Result<u64, NoMemory>
        requires from { step.from ≤ (held_in self.old host.now).0 }
        requires fits { (held_in self.old host.now).0 - step.from + step.to < 2 ^ 64 }
        ensures was { IfOk result (λ was. was ≡ (held_in self.old host.now).0) }
        ensures held { OnOk result ((other : List ℕ) → held_in self.new other
            ≡ (if bytes_eq host.now other
            then settled (after step (held_in self.old host.now))
            else held_in self.old other)) }
    {
        let Some(kept) = self.map.get_mut(host) else {
            self.begin(alloc, host, step)?;
            return Ok(0);
        };
        let was = kept.total;
        kept.apply(step)?;
        let is_empty = kept.is_empty();
        if is_empty {
            self.map.remove(host);
        }
        Ok(was)
    }
}

impl Origins {
    pub fn new(alloc: Global) -> Origins
        ensures { (origin : Origin) → held_at result origin ≡ nothing }
    {
        Origins {
            prefixes: BTreeMap::new(alloc),
        }
    }

    pub fn at(&self, prefix: &str, host: &str) -> Option<&Kept>
        ensures { unwrap_or (option_map held_of (option_copied result)) nothing
            ≡ held_at self.now (prefix.now, host.now) }
    {
        self.prefixes.get(prefix)?.map.get(host)
    }

    // The first page of a prefix.
    fn begin(&mut self, alloc: Global, prefix: &str, host: &str, step: Step) -> Result<(), NoMemory>
        requires from { step.from ≡ 0 }
        requires none { (other : List ℕ) → held_at self.old (prefix.now, other) ≡ nothing }
        ensures { OnOk result ((other : Origin) → held_at self.new other
            ≡ (if is_origin (prefix.now, host.now) other
            then settled (after step nothing)
            else held_at self.old other)) }
    {
        let mut hosts = Hosts::new(alloc);
        hosts.apply(alloc, host, step)?;
        let prefix = String::from_str(alloc, prefix)?;
        self.prefixes.insert(prefix, hosts)?;
        Ok(())
    }

    // A page comes to the origin or goes, or its share changes. Answers the total before.
    pub fn apply(
        &mut self,
        alloc: Global,
        prefix: &str,
        host: &str,
        step: Step,
    ) -> Result<u64, NoMemory>
        requires from { step.from ≤ (held_at self.old (prefix.now, host.now)).0 }
        requires fits { (held_at self.old (prefix.now, host.now)).0 - step.from + step.to
            < 2 ^ 64 }
        ensures was { IfOk result (λ was. was ≡ (held_at self.old (prefix.now, host.now)).0) }
        ensures held { OnOk result ((other : Origin) → held_at self.new other
            ≡ (if is_origin (prefix.now, host.now) other
            then settled (after step (held_at self.old (prefix.now, host.now)))
            else held_at self.old other)) }
    {
        let Some(hosts) = self.prefixes.get_mut(prefix) else {
            self.begin(alloc, prefix, host, step)?;
            return Ok(0);
        };
        let was = hosts.apply(alloc, host, step)?;
        let is_empty = hosts.is_empty();
        if is_empty {
            self.prefixes.remove(prefix);
        }
        Ok(was)
    }
}
