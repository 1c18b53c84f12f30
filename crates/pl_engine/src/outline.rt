// The bookmarks of rows, with what an import makes of them.
ghost use Rattle.std.specs.Prelude.{◌≡◌, ℕ, IfOk};
ghost use Rattle.pl_base.specs.Good.{IsGood};
ghost use Rattle.pl_base.specs.Rows.{store_of};
ghost use Rattle.pl_nbwrite.specs.Plain.{IsPlain};
ghost use Rattle.pl_outline.specs.Outline.{bookmarks};
ghost use Rattle.pl_engine.specs.Returns.{Returns};

use pl_base::{NoMemory, Rows, Steps};
use pl_nbread::Tree;
use pl_outline::tree;
use std::alloc::Global;
use std::sync::ledger::Ledger;

/// The bookmarks of the store that the rows hold. An import of them into the store before its first
/// command brings them back.
pub fn tree_of<R: Rows, L: Ledger>(
    alloc: Global,
    rows: &R,
    steps: &mut Steps<L>,
) -> Result<Tree, NoMemory>
    requires good { IsGood (store_of (R.kept rows.now)) }
    ensures tree { IfOk result (λ tree. tree ≡ bookmarks (store_of (R.kept rows.now))) }
    ensures plain { IfOk result IsPlain }
    ensures returns { IfOk result (λ tree. (limit : ℕ) → Returns limit tree) }
{
    tree(alloc, rows, steps)
}
