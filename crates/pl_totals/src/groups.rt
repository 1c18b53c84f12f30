// Groups of hosts, and their totals.
ghost use Rattle.std.specs.Prelude.{◌≡◌, ◌+◌, ◌-◌, ◌<◌, ◌≤◌, ◌^◌, ℕ, List, OnOk};
ghost use Rattle.std.specs.Prelude.{bytes_eq, if◌then◌else◌};
ghost use Rattle.std.specs.Option.{option_map};
ghost use Rattle.pl_base.specs.Totals as spec;
ghost use Rattle.pl_totals.specs.Groups.{grouped, is_ahead, or_best, total_in};
ghost use Rattle.pl_totals.specs.Standing.{Takes, stepped};

use crate::kept::Step;
use pl_base::NoMemory;
use std::alloc::Global;
use std::collections::BTreeMap;

/// The host without one leading `www.`: the name of its group.
pub fn without_www(host: &str) -> &str
    ensures { result.now ≡ spec.without_www host.now }
{
    host.strip_prefix("www.").unwrap_or(host)
}

// The totals of groups that are positive, by the host without `www.`.
#[derive(Drop)]
pub struct Groups {
    pub totals: BTreeMap<String, u64>,
}

impl Groups {
    pub fn new(alloc: Global) -> Groups
        ensures { (group : List ℕ) → total_in result group ≡ 0 }
    {
        Groups {
            totals: BTreeMap::new(alloc),
        }
    }

    pub fn total(&self, group: &str) -> u64
        ensures { result ≡ total_in self.now group.now }
    {
        self.totals.get(group).copied().unwrap_or(0)
    }

    // Of the total of a group one share goes, and another comes. A total that is 0 is not kept.
    pub fn apply(&mut self, alloc: Global, group: &str, step: Step) -> Result<(), NoMemory>
        requires { Takes step (total_in self.old group.now) }
        ensures { OnOk result ((other : List ℕ) → total_in self.new other
            ≡ (if bytes_eq group.now other
            then stepped step (total_in self.old group.now)
            else total_in self.old other)) }
    {
        let Some(total) = self.totals.get_mut(group) else {
            return self.begin(alloc, group, step.to);
        };
        let is = *total - step.from + step.to;
        *total = is;
        if is == 0 {
            self.totals.remove(group);
        }
        Ok(())
    }

    // The first share of a group.
    fn begin(&mut self, alloc: Global, group: &str, total: u64) -> Result<(), NoMemory>
        requires { total_in self.old group.now ≡ 0 }
        ensures { OnOk result ((other : List ℕ) → total_in self.new other
            ≡ (if bytes_eq group.now other then total else total_in self.old other)) }
    {
        if total == 0 {
            return Ok(());
        }
        let group = String::from_str(alloc, group)?;
        self.totals.insert(group, total)?;
        Ok(())
    }
}

// A group of hosts, and its total.
#[derive(Clone, Copy)]
pub struct Group<'a> {
    pub name: &'a str,
    pub total: u64,
}

impl<'a> Group<'a> {
    // Whether it has the greater total, or the same and the name that is first.
    fn is_ahead(self, other: Group) -> bool
        ensures { result ≡ is_ahead (grouped self.entry) (grouped other.entry) }
    {
        self.total > other.total || (self.total == other.total && self.name < other.name)
    }

    // The group, or the best so far, where it is not ahead of that.
    pub fn or_best(self, best: Option<Group<'a>>) -> Group<'a>
        ensures { grouped result ≡ or_best (grouped self.entry) (option_map grouped best.entry) }
    {
        match best {
            Some(best) if !self.is_ahead(best) => best,
            _ => self,
        }
    }
}
