// The check of a file and the engine's calls where nothing is counted. A caller hands over a blank
// for `Brand`, and its `Invariants.antt` says that the ledger is the blank's.
ghost use Rattle.std.specs.Prelude.{◌≡◌, ◌≤◌, ℕ, List, false, length, Err, IfOk, IfSome, OnOk};
ghost use Rattle.std.specs.List.{All};
ghost use Rattle.pl_base.specs.Good.{IsGood};
ghost use Rattle.pl_base.specs.Live.{slot_limit};
ghost use Rattle.pl_base.specs.Rows.{IsSound, store_of};
ghost use Rattle.pl_base.specs.Store.{Store};
ghost use Rattle.pl_base.specs.Touched.{IsWithin, MayDiffer, bytes_before, changed, page_numbers};
ghost use Rattle.pl_engine.specs.Idle.{IsIdle};
ghost use Rattle.pl_engine.specs.Returns.{Returns};
ghost use Rattle.pl_visiting.specs.VisitPages.{AddsFewPages};
ghost use Rattle.pl_linked.specs.Linked.{IsBase, bytes_of, kept_of, pending_of};
ghost use Rattle.pl_nbwrite.specs.Plain.{IsPlain};
ghost use Rattle.pl_outline.specs.BroughtBack.{IsBroughtBack};
ghost use Rattle.pl_outline.specs.Outline.{bookmarks, whole};
ghost use Rattle.pl_outline.specs.Whole.{IsWhole};
ghost use Rattle.pl_reading.specs.File.{FileStandsFor, stored_bytes};
ghost use Rattle.pl_record.specs.Form.{StandsFor};
ghost use Rattle.pl_step.specs.Commands.{HasDates, is_change};
ghost use Rattle.pl_step.specs.Step.{perform};
ghost use Rattle.pl_store.specs.OwnBase.{HasOwnBase};
ghost use Rattle.pl_store.specs.Uncounted.{IsBlankOf};

use pl_base::{CheckError, NoMemory, Refusal, Steps, Touched};
use pl_engine::Engine;
use pl_linked::Linked;
use pl_nbread::Tree;
use pl_step::{Command, Reply};
use std::alloc::Global;
use std::sync::ledger::{Blank, Ledger};

/// The rows of the store that a file stands for.
pub(crate) fn check<L: Ledger>(
    blank: Blank,
    alloc: Global,
    bytes: Vec<u8>,
) -> Result<Linked, CheckError>
    requires blank { IsBlankOf L.Ledger blank }
    ensures stands { IfOk result (λ rows.
        FileStandsFor bytes.items (store_of (kept_of rows))) }
    ensures sound { IfOk result (λ rows. IsSound (kept_of rows)) }
    ensures bytes { IfOk result (λ rows. bytes_of rows ≡ stored_bytes bytes.items) }
    ensures base { IfOk result HasOwnBase }
    ensures one { (a b : Store) → FileStandsFor bytes.items a → FileStandsFor bytes.items b
        → a ≡ b }
    ensures not_a_store { result ≡ Err CheckError.NotAStore → (store : Store)
        → FileStandsFor bytes.items store → ⊥ }
{
    Linked::check(alloc, bytes, &mut Steps::<L>::none(blank))
}

/// An engine over rows.
pub(crate) fn over<L: Ledger>(
    blank: Blank,
    alloc: Global,
    rows: Linked,
    limit: u32,
) -> Result<Engine<Linked>, NoMemory>
    requires blank { IsBlankOf L.Ledger blank }
    requires sound { IsSound (kept_of rows) }
    requires most { limit ≤ slot_limit }
    ensures rows { IfOk result (λ engine. engine.rows ≡ rows) }
    ensures stands { StandsFor (bytes_of rows) (store_of (kept_of rows)) }
    ensures limit { IfOk result (λ engine. engine.limit ≡ limit) }
{
    Engine::over(alloc, rows, limit, &mut Steps::<L>::none(blank))
}

/// One step of the machine.
pub(crate) fn apply<L: Ledger>(
    blank: Blank,
    engine: Engine<Linked>,
    command: &Command,
) -> Result<(Engine<Linked>, Reply), NoMemory>
    requires blank { IsBlankOf L.Ledger blank }
    requires dates { HasDates command.now }
    ensures step { IfOk result
        (λ done. (done.1, store_of (kept_of done.0.rows))
        ≡ perform engine.limit (store_of (kept_of engine.rows)) command.now) }
    ensures refused { IfOk result
        (λ done. (refusal : Refusal) → done.1 ≡ Reply.Refused refusal → done.0.rows ≡ engine.rows) }
    ensures unchanged { IfOk result
        (λ done. is_change command.now ≡ false → done.0.rows ≡ engine.rows) }
    ensures idle { IfOk result
        (λ done. IsIdle command.now (store_of (kept_of engine.rows)) → done.0.rows ≡ engine.rows) }
    ensures pages { IfOk result
        (λ done. AddsFewPages command.now (store_of (kept_of engine.rows)) (pending_of engine.rows)
        (pending_of done.0.rows)) }
    ensures base { IfOk result
        (λ done. (bytes : List ℕ) → IsBase engine.rows bytes → IsBase done.0.rows bytes) }
    ensures stands { IfOk result
        (λ done. StandsFor (bytes_of done.0.rows) (store_of (kept_of done.0.rows))) }
    ensures limit { IfOk result (λ done. done.0.limit ≡ engine.limit) }
{
    engine.apply(command, &mut Steps::<L>::none(blank))
}

/// The pages of the store's bytes that changed since the last such call, or since the rows were
/// made.
pub(crate) fn touched<L: Ledger>(
    blank: Blank,
    engine: &mut Engine<Linked>,
) -> Result<Touched, NoMemory>
    requires blank { IsBlankOf L.Ledger blank }
    ensures whole { IfOk result
        (λ change. (base : List ℕ) → IsBase engine.old.rows base
        → changed change base ≡ bytes_of engine.new.rows) }
    ensures before { IfOk result
        (λ change. (base : List ℕ) → IsBase engine.old.rows base
        → length base ≡ bytes_before change.before) }
    ensures some { IfOk result (λ change. 1 ≤ change.before) }
    ensures after { IfOk result
        (λ change. length (bytes_of engine.new.rows) ≡ bytes_before change.after) }
    ensures within { IfOk result IsWithin }
    ensures needed { IfOk result
        (λ change. All (MayDiffer (IsBase engine.old.rows) (bytes_of engine.new.rows))
        (page_numbers change.pages)) }
    ensures listed { IfOk result
        (λ change. IfSome (pending_of engine.old.rows) (λ count. length change.pages ≡ count)) }
    ensures base { OnOk result (HasOwnBase engine.new.rows) }
    ensures kept { kept_of engine.new.rows ≡ kept_of engine.old.rows }
    ensures bytes { bytes_of engine.new.rows ≡ bytes_of engine.old.rows }
    ensures limit { engine.new.limit ≡ engine.old.limit }
{
    engine.touched(&mut Steps::<L>::none(blank))
}

/// The bookmarks of the store that the rows hold.
pub(crate) fn tree_of<L: Ledger>(
    blank: Blank,
    alloc: Global,
    rows: &Linked,
) -> Result<Tree, NoMemory>
    requires blank { IsBlankOf L.Ledger blank }
    requires good { IsGood (store_of (kept_of rows.now)) }
    ensures tree { IfOk result (λ tree. tree ≡ bookmarks (store_of (kept_of rows.now))) }
    ensures plain { IfOk result IsPlain }
    ensures returns { IfOk result (λ tree. (limit : ℕ) → Returns limit tree) }
{
    pl_engine::tree_of(alloc, rows, &mut Steps::<L>::none(blank))
}

/// The same with all that the store has of them.
pub(crate) fn whole_tree_of<L: Ledger>(
    blank: Blank,
    alloc: Global,
    rows: &Linked,
) -> Result<Tree, NoMemory>
    requires blank { IsBlankOf L.Ledger blank }
    requires good { IsGood (store_of (kept_of rows.now)) }
    ensures tree { IfOk result (λ tree. tree ≡ whole (store_of (kept_of rows.now))) }
    ensures whole { IfOk result IsWhole }
    ensures restores { IfOk result (λ tree. (first : Store) → IsGood first → IsBroughtBack tree first) }
{
    pl_outline::whole_tree(alloc, rows, &mut Steps::<L>::none(blank))
}

/// The bookmarks of an engine's store.
pub(crate) fn tree<L: Ledger>(blank: Blank, engine: &Engine<Linked>) -> Result<Tree, NoMemory>
    requires blank { IsBlankOf L.Ledger blank }
    ensures tree { IfOk result (λ tree. tree ≡ bookmarks (store_of (kept_of engine.now.rows))) }
    ensures plain { IfOk result IsPlain }
    ensures returns { IfOk result (λ tree. (limit : ℕ) → Returns limit tree) }
{
    engine.tree(&mut Steps::<L>::none(blank))
}

/// The same with all that the store has of them.
pub(crate) fn whole_tree<L: Ledger>(blank: Blank, engine: &Engine<Linked>) -> Result<Tree, NoMemory>
    requires blank { IsBlankOf L.Ledger blank }
    ensures tree { IfOk result (λ tree. tree ≡ whole (store_of (kept_of engine.now.rows))) }
    ensures whole { IfOk result IsWhole }
    ensures restores { IfOk result (λ tree. (first : Store) → IsGood first → IsBroughtBack tree first) }
{
    engine.whole_tree(&mut Steps::<L>::none(blank))
}
