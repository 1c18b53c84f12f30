// The lists that members demand of their owners.
ghost use Rattle.std.specs.Prelude.{◌≡◌, ◌<◌, ◌++◌, ◌∷◌, [], length, replicate, slice_set};
ghost use Rattle.std.specs.Prelude.{IfOk, OnOk};
ghost use Rattle.std.specs.List.{All};
ghost use Rattle.pl_owned.specs.Owned as spec;

use pl_base::{NoMemory, Slot};
use std::alloc::Global;

/// A slot, and the one that it names as its owner, 0 for none.
#[derive(Clone, Copy, Debug)]
pub struct Member {
    pub owner: Slot,
    pub slot: Slot,
}

/// The slots that name each owner, found by the owner's number.
#[derive(Debug, Drop)]
pub struct Owned {
    lists: Vec<Vec<Slot>>,
}

impl Owned {
    /// The lists of the owners whose numbers are below `count`, in one pass over the members.
    pub fn of(alloc: Global, count: usize, members: &[Member]) -> Result<Owned, NoMemory>
        requires { All (λ m. m.owner.0 < count) members.now }
        ensures { IfOk result (spec.HasOwned members.now count) }
    {
        let mut owned = Owned::none(alloc, count)?;
        for member in members {
            owned.add(*member)?;
        }
        Ok(owned)
    }

    // Empty lists.
    fn none(alloc: Global, count: usize) -> Result<Owned, NoMemory>
        ensures { IfOk result (λ owned. spec.lists_in owned ≡ replicate count []) }
    {
        let mut lists = Vec::with_capacity(alloc, count)?;
        for _number in 0..count {
            lists.push(Vec::new(alloc))?;
        }
        Ok(Owned { lists })
    }

    // Puts a member behind those that name the same owner.
    fn add(&mut self, member: Member) -> Result<(), NoMemory>
        requires { member.owner.0 < length self.old.lists.items }
        ensures { OnOk result (spec.lists_in self.new ≡ slice_set (spec.lists_in self.old)
            member.owner.0 (spec.list_at self.old member.owner.0 ++ member.slot ∷ [])) }
    {
        self.lists[member.owner.0 as usize].push(member.slot)?;
        Ok(())
    }

    /// The slots that name an owner, in the order in which they came.
    pub fn list(&self, owner: Slot) -> &[Slot]
        requires { owner.0 < length self.now.lists.items }
        ensures { result.now ≡ spec.list_at self.now owner.0 }
    {
        &self.lists[owner.0 as usize]
    }
}
