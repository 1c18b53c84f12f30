ghost use Rattle.std.specs.Prelude.{◌≡◌, ◌≤◌, ◌↔◌, ℕ, List, Some, false, length, IfOk, IfSome};
ghost use Rattle.std.specs.Prelude.{IsErr, OnOk};
ghost use Rattle.std.specs.List.{All};
ghost use Rattle.pl_base.specs.Good.{IsGood};
ghost use Rattle.pl_base.specs.Live.{slot_limit};
ghost use Rattle.pl_base.specs.Rows.{IsSound, store_of};
ghost use Rattle.pl_base.specs.Store.{Store};
ghost use Rattle.pl_base.specs.Touched.{IsWithin, MayDiffer, bytes_before, changed};
ghost use Rattle.pl_base.specs.Touched.{page_numbers};
ghost use Rattle.pl_nbwrite.specs.Plain.{IsPlain};
ghost use Rattle.pl_outline.specs.BroughtBack.{IsBroughtBack};
ghost use Rattle.pl_outline.specs.Outline.{bookmarks, whole};
ghost use Rattle.pl_outline.specs.Whole.{IsWhole};
ghost use Rattle.pl_known.specs.Known.{Knows};
ghost use Rattle.pl_known.specs.Props.{props};
ghost use Rattle.pl_step.specs.Commands.{HasDates, MayWantMemory, is_change};
ghost use Rattle.pl_step.specs.Step as spec;
ghost use Rattle.pl_engine.specs.Idle.{IsIdle};
ghost use Rattle.pl_engine.specs.Parts.{known_in};
ghost use Rattle.pl_engine.specs.Returns.{Returns};
ghost use Rattle.pl_visiting.specs.NewDay.{ReadsFew};
ghost use Rattle.pl_visiting.specs.VisitPages.{AddsFewPages};

use crate::outline::tree_of;
use crate::parts::Parts;
use crate::perform::perform;
use pl_base::{NoMemory, Refusal, Rows, Steps, Touched};
use pl_changes::known_of;
use pl_known::Known;
use pl_nbread::Tree;
use pl_outline::whole_tree;
use pl_step::{Command, Reply, StepError};
use std::alloc::Global;
use std::sync::ledger::Ledger;

/// What performs commands on rows, however these are kept.
///
/// The rows hold a good store, and what they keep of each page beside its texts is right, and of
/// each origin its total. What is known of the pages in memory is what the rows tell of them.
#[derive(Drop)]
pub struct Engine<R: Rows> {
    alloc: Global,
    rows: R,
    // How many slots of 128 bytes the store may take.
    limit: u32,
    known: Known,
    ghost sound: { IsSound (R.kept rows) } by { Prim.hlevel props },
    ghost most: { limit ≤ slot_limit },
    ghost knows: { Knows (store_of (R.kept rows)) known } by { Prim.hlevel props },
}

impl<R: Rows + Drop> Engine<R> {
    /// Over rows whose store may take so many slots of 128 bytes. All pages are read.
    pub fn over<L: Ledger>(
        alloc: Global,
        rows: R,
        limit: u32,
        steps: &mut Steps<L>,
    ) -> Result<Engine<R>, NoMemory>
        requires sound { IsSound (R.kept rows) }
        requires most { limit ≤ slot_limit }
        ensures rows { IfOk result (λ engine. engine.rows ≡ rows) }
        ensures stands { R.form (R.bytes rows) (store_of (R.kept rows)) }
        ensures limit { IfOk result (λ engine. engine.limit ≡ limit) }
        ensures known { IfOk result (λ engine. Knows (store_of (R.kept rows)) engine.known) }
    {
        let known = known_of(alloc, &rows, steps)?;
        Ok(Engine {
            alloc,
            rows,
            limit,
            known,
        })
    }

    /// The engine taken apart. No record is read, and no memory taken.
    pub fn parts(self) -> Parts<R>
        ensures rows { result.rows ≡ self.rows }
        ensures limit { result.limit ≡ self.limit }
        ensures sound { IsSound (R.kept result.rows) }
        ensures most { result.limit ≤ slot_limit }
        ensures known { Knows (store_of (R.kept result.rows)) (known_in result) }
    {
        let Engine {
            alloc: _,
            rows,
            limit,
            known,
        } = self;
        Parts {
            rows,
            limit,
            views: known.views,
            urls: known.urls,
            order: known.order,
            texts: known.texts,
            calendar: known.calendar,
            totals: known.totals,
        }
    }

    /// The engine of these parts. No record is read, and no memory taken.
    pub fn of(alloc: Global, parts: Parts<R>) -> Engine<R>
        requires sound { IsSound (R.kept parts.rows) }
        requires most { parts.limit ≤ slot_limit }
        requires known { Knows (store_of (R.kept parts.rows)) (known_in parts) }
        ensures rows { result.rows ≡ parts.rows }
        ensures limit { result.limit ≡ parts.limit }
        ensures known { result.known ≡ known_in parts }
    {
        let known = Known {
            views: parts.views,
            urls: parts.urls,
            order: parts.order,
            texts: parts.texts,
            calendar: parts.calendar,
            totals: parts.totals,
        };
        Engine {
            alloc,
            rows: parts.rows,
            limit: parts.limit,
            known,
        }
    }

    /// One step of the machine. A refusal is a reply, and changes nothing. After
    /// `NoMemory` the engine is gone.
    pub fn apply<L: Ledger>(
        self,
        command: &Command,
        steps: &mut Steps<L>,
    ) -> Result<(Engine<R>, Reply), NoMemory>
        requires dates { HasDates command.now }
        ensures step { IfOk result (λ done. (done.1, store_of (R.kept done.0.rows))
            ≡ spec.perform self.limit (store_of (R.kept self.rows)) command.now) }
        ensures refused { IfOk result (λ done. (refusal : Refusal)
            → done.1 ≡ Reply.Refused refusal → done.0.rows ≡ self.rows) }
        // A command of a kind that changes nothing leaves the very same rows.
        ensures unchanged { IfOk result (λ done. is_change command.now ≡ false
            → done.0.rows ≡ self.rows) }
        // A title that stands already leaves them too.
        ensures idle { IfOk result (λ done. IsIdle command.now (store_of (R.kept self.rows))
            → done.0.rows ≡ self.rows) }
        ensures pages { IfOk result (λ done. AddsFewPages command.now
            (store_of (R.kept self.rows)) (R.pending self.rows) (R.pending done.0.rows)) }
        ensures sound { IfOk result (λ done. IsSound (R.kept done.0.rows)) }
        ensures base { IfOk result (λ done. (bytes : List ℕ)
            → R.base self.rows bytes → R.base done.0.rows bytes) }
        ensures stands { IfOk result (λ done.
            R.form (R.bytes done.0.rows) (store_of (R.kept done.0.rows))) }
        ensures limit { IfOk result (λ done. done.0.limit ≡ self.limit) }
        // The views are those of the store, and each follower stands for them.
        ensures known { IfOk result (λ done.
            Knows (store_of (R.kept done.0.rows)) done.0.known) }
        // A new day reads what it bears on, and not the whole store.
        ensures reads { ReadsFew command.now (store_of (R.kept self.rows)) steps.old steps.new }

        // A visit that is not recorded wants no memory, nor a move that is refused.
        ensures no_memory { IsErr result → MayWantMemory self.limit
            (store_of (R.kept self.rows)) command.now }
    {
        let Engine {
            alloc,
            mut rows,
            limit,
            mut known,
        } = self;
        match perform(alloc, &mut rows, &known, limit, command, steps) {
            Ok(done) => {
                known.follow(alloc, &done.changes)?;
                let engine = Engine {
                    alloc,
                    rows,
                    limit,
                    known,
                };
                Ok((engine, done.reply))
            }
            Err(StepError::Refused(refusal)) => {
                let engine = Engine {
                    alloc,
                    rows,
                    limit,
                    known,
                };
                Ok((engine, Reply::Refused(refusal)))
            }
            Err(StepError::NoMemory) => Err(NoMemory),
        }
    }

    /// The bookmarks of the store.
    pub fn tree<L: Ledger>(&self, steps: &mut Steps<L>) -> Result<Tree, NoMemory>
        ensures tree { IfOk result (λ tree. tree ≡ bookmarks (store_of (R.kept self.now.rows))) }
        ensures plain { IfOk result IsPlain }
        ensures returns { IfOk result (λ tree. (limit : ℕ) → Returns limit tree) }
    {
        tree_of(self.alloc, &self.rows, steps)
    }

    /// The same with all that the store has of them.
    pub fn whole_tree<L: Ledger>(&self, steps: &mut Steps<L>) -> Result<Tree, NoMemory>
        ensures tree { IfOk result (λ tree. tree ≡ whole (store_of (R.kept self.now.rows))) }
        ensures whole { IfOk result IsWhole }
        ensures restores { IfOk result (λ tree. (first : Store) → IsGood first → IsBroughtBack tree first) }
    {
        whole_tree(self.alloc, &self.rows, steps)
    }

    /// The pages of the store's bytes that changed since the last such call, or
    /// since the rows were made.
    pub fn touched<L: Ledger>(&mut self, steps: &mut Steps<L>) -> Result<Touched, NoMemory>
        ensures whole { IfOk result (λ change. (base : List ℕ) → R.base self.old.rows base
            → changed change base ≡ R.bytes self.new.rows) }
        ensures before { IfOk result (λ change. (base : List ℕ) → R.base self.old.rows base
            → length base ≡ bytes_before change.before) }
        ensures some { IfOk result (λ change. 1 ≤ change.before) }
        ensures after { IfOk result (λ change.
            length (R.bytes self.new.rows) ≡ bytes_before change.after) }
        ensures within { IfOk result IsWithin }
        ensures needed { IfOk result (λ change.
            All (MayDiffer (R.base self.old.rows) (R.bytes self.new.rows))
            (page_numbers change.pages)) }
        ensures listed { IfOk result (λ change.
            IfSome (R.pending self.old.rows) (λ count. length change.pages ≡ count)) }
        ensures pending { OnOk result (IfSome (R.pending self.old.rows) (λ count.
            R.pending self.new.rows ≡ Some 0)) }
        ensures base { OnOk result ((base : List ℕ)
            → R.base self.new.rows base ↔ (base ≡ R.bytes self.new.rows)) }
        ensures kept { R.kept self.new.rows ≡ R.kept self.old.rows }
        ensures bytes { R.bytes self.new.rows ≡ R.bytes self.old.rows }
        ensures limit { self.new.limit ≡ self.old.limit }
    {
        self.rows.touched(steps)
    }
}
