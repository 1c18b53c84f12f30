// Followers that are told of views one after another.
ghost use Rattle.std.specs.Prelude.{[], IfOk};
ghost use Rattle.pl_follow.specs.Changes.{AreInOrder, FitStore};

use pl_base::{NoMemory, View};
use pl_follow::Follow;
use std::alloc::Global;

/// The follower, which stands for no view, after each of these came.
///
/// Each follower is told of all views before the next is told of any: what it keeps lies close by
/// then.
pub fn told<F: Follow + Drop>(alloc: Global, mut follower: F, views: &[View]) -> Result<F, NoMemory>
    requires none { F.stands follower [] }
    requires order { AreInOrder views.now }
    requires fit { FitStore views.now }
    ensures { IfOk result (λ told. F.stands told views.now) }
{
    for view in views {
        follower.change(alloc, None, Some(view))?;
    }
    Ok(follower)
}
