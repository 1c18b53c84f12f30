ghost use Rattle.std.specs.Prelude.{◌≡◌, ◌+◌, ◌*◌, ◌/◌, ◌^◌, ◌<◌, ◌≤◌, true, false, not};
ghost use Rattle.std.specs.Prelude.{length, map, replicate, IfOk, OnOk};
ghost use Rattle.pl_sheets.specs.Marks.{is_empty, has_bit, IsFirst, IsNext, IsNextInWord};
ghost use Rattle.pl_sheets.specs.Marks.{IsWithBit, HasMoreRoom, AreSummed};

use pl_base::NoMemory;
use std::alloc::Global;

/// A bit for each number, in words of 64.
#[derive(Debug, Drop)]
pub struct Level {
    words: Vec<u64>,
}

impl Level {
    /// Zeros, with a bit for each number up to `n`.
    pub fn zeros(alloc: Global, n: usize) -> Result<Self, NoMemory>
        ensures { IfOk result (λ level. level.words.items ≡ replicate (n / 64 + 1) 0) }
    {
        let words = vec![in alloc; 0; n / 64 + 1]?;
        Ok(Level { words })
    }

    /// Makes room for the bit of `n`, if there is none.
    pub fn make_room(&mut self, n: usize) -> Result<(), NoMemory>
        requires few { n < 2 ^ 32 }
        requires next { n ≤ 64 * length self.old.words.items }
        ensures kept { HasMoreRoom self.old.words.items self.new.words.items }
        ensures room { OnOk result (n < 64 * length self.new.words.items) }
    {
        if self.words.len() <= n / 64 {
            self.words.push(0)?;
        }
        Ok(())
    }

    /// Sets a bit to 1.
    pub fn set(&mut self, n: usize)
        requires { n / 64 < length self.old.words.items }
        ensures { IsWithBit true n self.old.words.items self.new.words.items }
    {
        self.words[n / 64] |= 1 << (n % 64);
    }

    /// Sets a bit to 0, and says whether its word is 0 then.
    pub fn clear(&mut self, n: usize) -> bool
        requires { n / 64 < length self.old.words.items }
        ensures cleared { IsWithBit false n self.old.words.items self.new.words.items }
        ensures empty { result ≡ is_empty (n / 64) self.new.words.items }
    {
        self.words[n / 64] &= !(1 << (n % 64));
        self.words[n / 64] == 0
    }

    /// The first number from `from` on whose bit is 1. Each level above says of the words of the
    /// one below which are not 0.
    pub fn next(&self, above: &[&Level], from: usize) -> Option<usize>
        requires { AreSummed self.now.words.items
            (map (λ level. level.now.words.items) above.now) }
        ensures { IsNext (λ n. has_bit n self.now.words.items) from result }
    {
        if let Some(n) = self.next_in_word(from) {
            return Some(n);
        }
        let word = match above.split_first() {
            Some((level, rest)) => level.next(rest, from / 64 + 1)?,
            None => self.next_word(from / 64 + 1)?,
        };
        Some(lowest_in(&self.words, word))
    }

    // The first number from `from` on, and within its word, whose bit is 1.
    fn next_in_word(&self, from: usize) -> Option<usize>
        ensures { IsNextInWord from self.now.words.items result }
    {
        if self.words.len() <= from / 64 {
            return None;
        }
        let left = self.words[from / 64] & (u64::MAX << (from % 64));
        if left == 0 {
            return None;
        }
        Some(from / 64 * 64 + left.trailing_zeros() as usize)
    }

    // The place of the first word from `from` on that is not 0.
    fn next_word(&self, from: usize) -> Option<usize>
        ensures { IsNext (λ w. not (is_empty w self.now.words.items)) from result }
    {
        for word in from..self.words.len() {
            if self.words[word] != 0 {
                return Some(word);
            }
        }
        None
    }
}

// The first number of a word that is not 0 whose bit is 1.
fn lowest_in(words: &[u64], word: usize) -> usize
    requires few { length words.now ≤ 2 ^ 32 }
    requires some { is_empty word words.now ≡ false }
    ensures first { IsFirst (λ n. has_bit n words.now) (64 * word) result }
    ensures within { result / 64 ≡ word }
{
    64 * word + words[word].trailing_zeros() as usize
}
