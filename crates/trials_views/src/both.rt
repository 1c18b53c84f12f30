// Two followers that are told of the same changes, and one that keeps nothing.
use pl_base::{NoMemory, View};
use pl_follow::Follow;
use std::alloc::Global;

/// Two followers of the same views.
#[derive(Debug, Drop)]
pub struct Both<A, B> {
    pub one: A,
    pub other: B,
}

/// A follower that keeps nothing.
#[derive(Debug, Drop)]
pub struct Nothing {}

impl<A: Follow, B: Follow> Follow for Both<A, B> {
    ghost stands = { λ both views. A.stands both.one views × B.stands both.other views };

    fn change(
        &mut self,
        alloc: Global,
        old: Option<&View>,
        new: Option<&View>,
    ) -> Result<(), NoMemory> {
        self.one.change(alloc, old, new)?;
        self.other.change(alloc, old, new)
    }
}

impl Follow for Nothing {
    ghost stands = { λ _ _. Unit {0} };

    fn change(
        &mut self,
        _alloc: Global,
        _old: Option<&View>,
        _new: Option<&View>,
    ) -> Result<(), NoMemory> {
        Ok(())
    }
}
