ghost use Rattle.std.specs.Prelude.{◌≡◌, ◌^◌, ◌<◌, ◌≤◌, ◌++◌, ◌∷◌, [], true, false};
ghost use Rattle.std.specs.Prelude.{length, replicate, slice_index_or, slice_set};
ghost use Rattle.std.specs.Prelude.{IfOk, IfSome, OnErr, OnOk};
ghost use Rattle.pl_sheets.specs.Marks.{IsNext};

use crate::level::Level;
use pl_base::NoMemory;
use std::alloc::Global;
use std::marker::Model;

/// The numbers below a count, of which some are marked. Contracts see a list with a truth value
/// for each number.
#[derive(Debug, Drop)]
pub struct Marks {
    count: usize,
    // A bit for each number.
    bits: Level,
    // A bit for each word of `bits`, which is 1 where the word is not 0; and so on above.
    groups: Level,
    blocks: Level,
    areas: Level,
}

impl Model for Marks {
    ghost use Rattle.std.specs.Prelude.{Bool, List};
    ghost use Rattle.pl_sheets.specs.Marks.{AreLevels, marked};

    ghost Value = { List Bool };

    ghost view = { λ m. marked m.count m.bits.words.items };

    ghost invariant = { λ m. AreLevels m.count m.bits.words.items m.groups.words.items
        m.blocks.words.items m.areas.words.items };
}

impl Marks {
    /// So many numbers, of which none is marked.
    pub fn new(alloc: Global, count: usize) -> Result<Self, NoMemory>
        requires { count ≤ 2 ^ 32 }
        ensures { IfOk result (λ marks. marks ≡ replicate count false) }
    {
        Ok(Marks {
            count,
            bits: Level::zeros(alloc, count)?,
            groups: Level::zeros(alloc, count / 64)?,
            blocks: Level::zeros(alloc, count / 64 / 64)?,
            areas: Level::zeros(alloc, count / 64 / 64 / 64)?,
        })
    }

    /// Marks a number.
    pub fn insert(&mut self, n: usize)
        requires { n < length self.old }
        ensures { self.new ≡ slice_set self.old n true }
    {
        self.bits.set(n);
        self.groups.set(n / 64);
        self.blocks.set(n / 64 / 64);
        self.areas.set(n / 64 / 64 / 64);
    }

    // Takes the mark from a number that has one.
    fn remove(&mut self, n: usize)
        requires { slice_index_or self.old n false ≡ true }
        ensures { self.new ≡ slice_set self.old n false }
    {
        if !self.bits.clear(n) {
            return;
        }
        if !self.groups.clear(n / 64) {
            return;
        }
        if !self.blocks.clear(n / 64 / 64) {
            return;
        }
        self.areas.clear(n / 64 / 64 / 64);
    }

    /// Adds the next number, and marks it. After an `Err` nothing has changed.
    pub fn grow(&mut self) -> Result<(), NoMemory>
        requires { length self.old < 2 ^ 32 }
        ensures ok { OnOk result (self.new ≡ self.old ++ true ∷ []) }
        ensures err { OnErr result (self.new ≡ self.old) }
    {
        let n = self.count;
        self.bits.make_room(n)?;
        self.groups.make_room(n / 64)?;
        self.blocks.make_room(n / 64 / 64)?;
        self.areas.make_room(n / 64 / 64 / 64)?;
        self.count += 1;
        self.insert(n);
        Ok(())
    }

    /// The first marked number from `from` on.
    pub fn next(&self, from: usize) -> Option<usize>
        ensures first { IsNext (λ n. slice_index_or self.now n false) from result }
        ensures few { IfSome result (λ n. n < 2 ^ 32) }
    {
        self.bits
            .next(&[&self.groups, &self.blocks, &self.areas], from)
    }

    /// Takes all marks.
    pub fn clear(&mut self)
        ensures { self.new ≡ replicate (length self.old) false }
    {
        let mut from = 0;
        while let Some(n) = self.next(from) {
            self.remove(n);
            from = n + 1;
        }
    }
}
