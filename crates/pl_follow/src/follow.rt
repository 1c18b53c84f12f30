// The law of what follows the views of a store.
ghost use Rattle.std.specs.Prelude.{List, OnOk};
ghost use Rattle.std.specs.Option.{option_copied};
ghost use Rattle.pl_base.specs.declared.view.View.{View};
ghost use Rattle.pl_follow.specs.Changes.{IsChange, Suits, changed};

use pl_base::{NoMemory, View};
use std::alloc::Global;

/// A function of a list of views, in the order of their ids, that is kept without the list.
///
/// It is told of each change of the list: of the view that goes, of the one that comes, or of both.
/// What is new stands for the empty list.
pub trait Follow {
    /// The lists of views that it stands for.
    ghost stands: { Self → List View → Type 0 };

    /// The old view goes, and the new one comes; where there are both, the new one stands in place
    /// of the old one, under the same id or another.
    ///
    /// After `NoMemory` the follower is given up.
    fn change(
        &mut self,
        alloc: Global,
        old: Option<&View>,
        new: Option<&View>,
    ) -> Result<(), NoMemory>
        requires change { IsChange (stands self.old) (option_copied old) (option_copied new) }
        ensures follows { OnOk result ((views : List View) → stands self.old views
            → Suits (option_copied old.entry) (option_copied new.entry) views
            → stands self.new
            (changed (option_copied old.entry) (option_copied new.entry) views)) };
}
