ghost use Rattle.std.specs.Prelude.{◌≡◌, ◌↔◌, ℕ, ◌+◌, ◌<◌, ◌≤◌, List, Some, None, ◌++◌, length};
ghost use Rattle.std.specs.Prelude.{take, slice_range, IfOk, IfSome, OnOk, OnErr, IsOk, IsErr};
ghost use Rattle.std.specs.Prelude.{MatchOption, Ok};
ghost use Rattle.std.specs.Option.{option_map};
ghost use Rattle.pl_desk.specs.Counts.{Counts, Writes, last_count};
ghost use Rattle.pl_desk.specs.Desk.{last_offset, overwritten, Torn, Follows, Only, Shows};
ghost use Rattle.pl_desk.specs.Desk.{ShowsSaying, said_by, Elapses};
ghost use Rattle.pl_desk.specs.QuickDesk.{empty_desk, after_write_at, after_say};
ghost use Rattle.pl_desk.specs.QuickDesk.{after_failed_call, after_failed_say};
ghost use Rattle.pl_desk.specs.Untold.{untold, AnyFile, AnyShown, told_together, counts_now};
ghost use Rattle.pl_desk.specs.Untold.{shown_now, only_now};

use crate::replay::overwrite;
use crate::{Calls, Desk, Failed};
use std::alloc::Global;
use std::marker::Model;

/// A desk in memory that keeps no record of its calls, for runs of any length. As a `Desk` it tells
/// nothing of its content; its own clauses do.
#[derive(Debug, Drop)]
pub struct QuickDesk {
    bytes: Vec<u8>,
    said: Vec<u8>,
    calls: Calls,
}

impl Model for QuickDesk {
    ghost use Rattle.pl_desk.specs.QuickDesk.{QuickState};

    ghost Value = { QuickState };

    ghost view = { λ d. record { bytes = d.bytes.items; said = d.said.items; counts = d.calls } };
}

impl QuickDesk {
    /// A desk with an empty file.
    pub fn new(alloc: Global) -> QuickDesk
        ensures { result ≡ empty_desk }
    {
        QuickDesk {
            bytes: Vec::new(alloc),
            said: Vec::new(alloc),
            calls: Calls::new(),
        }
    }

    pub fn said(&self) -> &[u8]
        ensures { result.now ≡ self.now.said }
    {
        &self.said
    }
}

// Copies as many bytes from the offset on as `out` has room for.
fn copy_range(bytes: &[u8], at: u64, out: &mut [u8]) -> Result<(), Failed>
    ensures fails { IsErr result ↔ length bytes.now < at + length out.old }
    ensures read { OnOk result (out.new ≡ slice_range bytes.now at (at + length out.old)) }
    ensures kept { OnErr result (out.new ≡ out.old) }
{
    let from = at as usize;
    let end = from.checked_add(out.len()).ok_or(Failed)?;
    out.copy_from_slice(bytes.get(from..end).ok_or(Failed)?);
    Ok(())
}

impl Desk for QuickDesk {
    ghost held = { untold };

    ghost said = { untold };

    ghost written = { λ desk. desk.counts.written };

    ghost device_faults = { λ desk. desk.counts.device_faults };

    ghost line_faults = { λ desk. desk.counts.line_faults };

    ghost may_leave = { AnyFile };

    ghost moment = { λ _. 0 };

    ghost shown_since = { AnyShown };

    ghost told_together = { told_together };

    ghost counts_now = { counts_now };

    ghost shown_now = { shown_now };

    ghost only_now = { only_now };

    /// It never fails.
    fn len(&mut self) -> Result<u64, Failed>
        ensures value { result ≡ Ok (length self.old.bytes) }
        ensures after { self.new ≡ self.old }

        // What each desk promises.
        ensures length { IfOk result (λ n. IfSome (untold self.old) (λ file. n ≡ length file)) }
        ensures most { IfOk result (λ n. n ≤ last_offset) }
        ensures written { self.new.counts.written ≡ self.old.counts.written }
        ensures line { self.new.counts.line_faults ≡ self.old.counts.line_faults }
        ensures counted { Counts result
            self.old.counts.device_faults self.new.counts.device_faults }
        ensures time { Elapses 0 0 (AnyShown self.old) (AnyShown self.new)
            (Shows (AnyFile self.new) (untold self.old)) }
    {
        Ok(self.bytes.len() as u64)
    }

    /// Fails exactly where the range ends past the end of the file. After an `Err`, `out` is as it
    /// was.
    fn read_at(&mut self, at: u64, out: &mut [u8]) -> Result<(), Failed>
        ensures fails { IsErr result ↔ length self.old.bytes < at + length out.old }
        ensures bytes { OnOk result
            (out.new ≡ slice_range self.old.bytes at (at + length out.old)) }
        ensures out_kept { OnErr result (out.new ≡ out.old) }
        ensures after { OnOk result (self.new ≡ self.old) }
        ensures after_failed { OnErr result (self.new ≡ after_failed_call self.old) }

        // What each desk promises.
        ensures read { OnOk result
            (IfSome (untold self.old)
            (λ file. out.new ≡ slice_range file at (at + length out.old))) }
        ensures written { self.new.counts.written ≡ self.old.counts.written }
        ensures line { self.new.counts.line_faults ≡ self.old.counts.line_faults }
        ensures counted { Counts result
            self.old.counts.device_faults self.new.counts.device_faults }
        ensures time { Elapses 0 0 (AnyShown self.old) (AnyShown self.new)
            (Shows (AnyFile self.new) (untold self.old)) }
    {
        let answer = copy_range(&self.bytes, at, out);
        self.calls.count(answer)
    }

    /// Fails where the bytes written would pass 2^64 - 1, and where a longer file finds no memory.
    /// A call that fails writes nothing.
    fn write_at(&mut self, at: u64, bytes: &[u8]) -> Result<(), Failed>
        ensures refused { last_count < self.old.counts.written + length bytes.now → IsErr result }
        ensures within { self.old.counts.written + length bytes.now ≤ last_count
            → at + length bytes.now ≤ length self.old.bytes → IsOk result }
        ensures after { OnOk result (self.new ≡ after_write_at self.old at bytes.now) }
        ensures after_failed { OnErr result (self.new ≡ after_failed_call self.old) }

        // What each desk promises.
        ensures held { OnOk result
            (untold self.new ≡ option_map (overwritten 0 at bytes.now) (untold self.old)) }
        ensures torn { OnErr result
            (MatchOption (untold self.old) (untold self.new ≡ None)
            (λ old. (new : List ℕ) × (untold self.new ≡ Some new)
            × Torn at (length bytes.now) old new)) }
        ensures written { Writes result (length bytes.now) self.old.counts.written
            self.new.counts.written }
        ensures line { self.new.counts.line_faults ≡ self.old.counts.line_faults }
        ensures counted { Counts result
            self.old.counts.device_faults self.new.counts.device_faults }
        ensures leaves { Follows (Torn at (length bytes.now))
            (AnyFile self.old) (AnyFile self.new) }
        ensures time { Elapses 0 0 (AnyShown self.old) (AnyShown self.new)
            (Shows (AnyFile self.new) (untold self.old)) }
    {
        if !self.calls.has_room(bytes.len()) {
            return self.calls.count(Err(Failed));
        }
        let answer = overwrite(&mut self.bytes, 0, at, bytes);
        self.calls.count_write(bytes.len(), answer)
    }

    /// It never fails.
    fn sync(&mut self) -> Result<(), Failed>
        ensures ok { IsOk result }
        ensures after { self.new ≡ self.old }

        // What each desk promises.
        ensures durable { OnOk result
            (IfSome (untold self.old) (λ file. Only file (AnyFile self.new))) }
        ensures written { self.new.counts.written ≡ self.old.counts.written }
        ensures line { self.new.counts.line_faults ≡ self.old.counts.line_faults }
        ensures counted { Counts result
            self.old.counts.device_faults self.new.counts.device_faults }
        ensures time { Elapses 0 0 (AnyShown self.old) (AnyShown self.new)
            (Shows (AnyFile self.new) (untold self.old)) }
    {
        Ok(())
    }

    /// Says the whole piece, or nothing where there is no memory.
    fn say(&mut self, bytes: &[u8]) -> Result<usize, Failed>
        requires { 0 < length bytes.now }

        ensures whole { IfOk result (λ n. n ≡ length bytes.now) }
        ensures after { OnOk result (self.new ≡ after_say self.old bytes.now) }
        ensures after_failed { OnErr result (self.new ≡ after_failed_say self.old) }

        // What each desk promises.
        ensures said { IfOk result
            (λ n. untold self.new ≡ option_map (λ before. before ++ take n bytes.now)
            (untold self.old)) }
        ensures kept { OnErr result (untold self.new ≡ untold self.old) }
        ensures within { IfOk result (λ n. (0 < n) × (n ≤ length bytes.now)) }
        ensures written { self.new.counts.written ≡ self.old.counts.written }
        ensures device { self.new.counts.device_faults ≡ self.old.counts.device_faults }
        ensures counted { Counts result self.old.counts.line_faults self.new.counts.line_faults }
        ensures time { Elapses 0 0 (AnyShown self.old) (AnyShown self.new)
            (ShowsSaying (AnyFile self.new) (untold self.old) bytes.now (said_by result)) }
    {
        let answer = self.said.extend_from_slice(bytes);
        self.calls.count_say(answer.map(|()| bytes.len()))
    }
}
