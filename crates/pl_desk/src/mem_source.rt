ghost use Rattle.std.specs.Prelude.{◌≡◌, ◌↔◌, ◌<◌, ◌≤◌, Some, [], ◌++◌, length, take, drop, min};
ghost use Rattle.std.specs.Prelude.{IfOk, OnErr, IsErr, Contains};
ghost use Rattle.pl_desk.specs.MemSource.{source_over, after_read, after_failed_read};
ghost use Rattle.pl_desk.specs.Counts.{Counts};

use crate::fails::is_to_fail;
use crate::{Failed, Source};
use pl_base::NoMemory;
use std::alloc::Global;
use std::marker::Model;

/// Bytes in memory as a source.
#[derive(Debug, Drop)]
pub struct MemSource {
    bytes: Vec<u8>,
    taken: usize,
    piece: usize,
    fails: Vec<u32>,
    calls: u64,
    faults: u64,
}

impl Model for MemSource {
    ghost use Rattle.std.specs.Prelude.{◌<◌, ◌≤◌, drop, vec_len};
    ghost use Rattle.pl_desk.specs.MemSource.{SourceState};

    ghost Value = { SourceState };

    ghost view = { λ s. record {
      left = drop s.taken s.bytes.items;
      piece = s.piece;
      fails = s.fails.items;
      calls = s.calls;
      faults = s.faults;
    } };

    ghost invariant = { λ s. (s.taken ≤ vec_len s.bytes) × (0 < s.piece) };
}

impl MemSource {
    /// A source of these bytes. A read takes at most `piece` of them, and the reads with the
    /// numbers of `fails`, counted from 0, fail.
    pub fn over(
        alloc: Global,
        bytes: &[u8],
        piece: usize,
        fails: &[u32],
    ) -> Result<MemSource, NoMemory>
        requires { 0 < piece }
        ensures { IfOk result (λ source. source ≡ source_over bytes.now piece fails.now) }
    {
        Ok(MemSource {
            bytes: Vec::from_slice(alloc, bytes)?,
            taken: 0,
            piece,
            fails: Vec::from_slice(alloc, fails)?,
            calls: 0,
            faults: 0,
        })
    }
}

// Copies as many bytes to the front of `out` as there are and as fit, but at most so many.
fn copy_front(from: &[u8], most: usize, out: &mut [u8]) -> usize
    ensures count { result ≡ min (length out.old) (min most (length from.now)) }
    ensures copied { out.new ≡ take result from.now ++ drop result out.old }
    ensures front { from.now ≡ take result out.new ++ drop result from.now }
{
    let len = out.len().min(most.min(from.len()));
    out[..len].copy_from_slice(&from[..len]);
    len
}

impl Source for MemSource {
    ghost left = { λ source. Some source.left };

    ghost faults = { λ source. source.faults };

    /// Fails exactly where the number of the read is one of `fails`.
    fn read(&mut self, out: &mut [u8]) -> Result<usize, Failed>
        requires { 0 < length out.old }

        ensures fails { IsErr result ↔ Contains self.old.fails self.old.calls }
        ensures count { IfOk result (λ n.
            n ≡ min (length out.old) (min self.old.piece (length self.old.left))) }
        ensures copied { IfOk result (λ n. out.new ≡ take n self.old.left ++ drop n out.old) }
        ensures after { IfOk result (λ n. self.new ≡ after_read self.old n) }
        ensures out_kept { OnErr result (out.new ≡ out.old) }
        ensures after_failed { OnErr result (self.new ≡ after_failed_read self.old) }

        // What each source promises.
        ensures within { IfOk result (λ n. n ≤ length out.old) }
        ensures taken { IfOk result (λ n. self.old.left ≡ take n out.new ++ self.new.left) }
        ensures ended { IfOk result (λ n. n ≡ 0 → self.old.left ≡ []) }
        ensures kept { OnErr result (self.new.left ≡ self.old.left) }
        ensures counted { Counts result self.old.faults self.new.faults }
    {
        let call = self.calls;
        self.calls = call.saturating_add(1);
        if is_to_fail(&self.fails, call) {
            self.faults = self.faults.saturating_add(1);
            return Err(Failed);
        }
        let len = copy_front(&self.bytes[self.taken..], self.piece, out);
        self.taken += len;
        Ok(len)
    }
}
