ghost use Rattle.std.specs.Prelude.{◌≡◌, ◌↔◌, ℕ, ◌+◌, ◌<◌, ◌≤◌, List, Some, [], ◌++◌, length, take};
ghost use Rattle.std.specs.Prelude.{slice_get, slice_range, IsTrue, IfOk, OnOk, OnErr, IsErr};
ghost use Rattle.pl_desk.specs.Counts.{Counts, Rose, Writes};
ghost use Rattle.pl_desk.specs.Desk.{last_offset, overwritten, Torn, Follows, Only, Shows};
ghost use Rattle.pl_desk.specs.Desk.{ShowsSaying, said_by, Elapses};
ghost use Rattle.pl_desk.specs.MemDesk.{nothing, wrote, tore, synced, desk_holding, begun_at};
ghost use Rattle.pl_desk.specs.MemDesk.{line_at, held_by, written_in, MayLeave, ShownSince};
ghost use Rattle.pl_desk.specs.MemDesk.{after_deed, written_by, Takes, IsOfFailure, IsRefused};
ghost use Rattle.pl_desk.specs.MemDesk.{with_call, with_call_if_room, after_say, after_failed_call};
ghost use Rattle.pl_desk.specs.MemDesk.{after_failed_say};
ghost use Rattle.pl_desk.specs.Record.{deed_of};
ghost use Rattle.pl_desk.specs.Replay.{told_together, counts_now, shown_now, only_now};
ghost use Rattle.pl_desk.specs.Stopped.{stopped_in, LeftIn};

use crate::fails::is_to_fail;
use crate::record::{Deed, Recorded};
use crate::replay::{fill, image_of, overwrite};
use crate::{Desk, Failed};
use pl_base::NoMemory;
use std::alloc::{AllocError, Global};
use std::marker::Model;

/// How many calls the record of a desk in memory has room for.
pub const RECORD_ROOM: usize = 100_000;

/// A desk in memory that records its calls. A call's number is the number of recorded calls before
/// it.
#[derive(Debug, Drop)]
pub struct MemDesk {
    // the file before the first call, and as it is now
    first: Vec<u8>,
    file: Vec<u8>,
    calls: Vec<Recorded>,
    said: Vec<u8>,
    fails: Vec<u32>,
    device_faults: u64,
    line_faults: u64,
}

impl Model for MemDesk {
    ghost use Rattle.std.specs.Prelude.{◌≡◌, ◌≤◌, length, vec_len, vec_capacity, All};
    ghost use Rattle.pl_desk.specs.MemDesk.{DeskState, begun_at, file_after};
    ghost use Rattle.pl_desk.specs.Record.{calls_of};
    ghost use Rattle.pl_desk.specs.Stopped.{IsQuiet};
    ghost use Rattle.pl_desk.specs.declared.mem_desk.TheConstants.{RECORD_ROOM};

    ghost Value = { DeskState };

    ghost view = { λ d. record {
      first = d.first.items;
      calls = calls_of d.calls.items;
      said = d.said.items;
      fails = d.fails.items;
      device_faults = d.device_faults;
      line_faults = d.line_faults;
    } };

    ghost invariant = { λ d. record {
      few : vec_len d.calls ≤ RECORD_ROOM;
      room : RECORD_ROOM ≤ vec_capacity d.calls;
      within : All (λ said_len. said_len ≤ length d.said.items) (begun_at (calls_of d.calls.items));
      quiet : IsQuiet (calls_of d.calls.items) d.said.items;
      replayed : d.file.items ≡ file_after d.first.items (calls_of d.calls.items);
    } };
}

impl MemDesk {
    /// A desk with a file of these bytes. The calls with the numbers of `fails` fail, and so does
    /// each call that the record has no room for. It takes the memory of the whole record at once.
    pub fn holding(alloc: Global, bytes: &[u8], fails: &[u32]) -> Result<MemDesk, NoMemory>
        ensures { IfOk result (λ desk. desk ≡ desk_holding bytes.now fails.now) }
    {
        Ok(MemDesk {
            first: Vec::from_slice(alloc, bytes)?,
            file: Vec::from_slice(alloc, bytes)?,
            calls: Vec::with_capacity(alloc, RECORD_ROOM)?,
            said: Vec::new(alloc),
            fails: Vec::from_slice(alloc, fails)?,
            device_faults: 0,
            line_faults: 0,
        })
    }

    /// The bytes of the file.
    pub fn bytes(&self) -> &[u8]
        ensures { result.now ≡ held_by self.now }
    {
        &self.file
    }

    pub fn said(&self) -> &[u8]
        ensures { result.now ≡ self.now.said }
    {
        &self.said
    }

    /// How many calls are recorded.
    pub fn calls(&self) -> u32
        ensures { result ≡ length self.now.calls }
    {
        self.calls.len() as u32
    }

    /// How many bytes had been said when the call with this number began.
    pub fn said_at(&self, call: u32) -> usize
        requires { call < length self.now.calls }
        ensures value { slice_get (begun_at self.now.calls) call ≡ Some result }
        ensures within { result ≤ length self.now.said }
        ensures line { result ≡ length (line_at self.now call) }
    {
        self.calls[call as usize].said_before
    }

    /// A desk with the file that a stop within the call with this number may leave, with `filler`
    /// in each byte that may hold anything. Nothing was said to it, and none of its calls is to
    /// fail.
    pub fn stopped(&self, alloc: Global, call: u32, filler: u8) -> Result<MemDesk, NoMemory>
        requires { call < length self.now.calls }
        ensures left { IfOk result
            (λ desk. desk ≡ desk_holding (stopped_in self.now call filler) []) }
        ensures allowed { LeftIn self.now call (stopped_in self.now call filler) }
        ensures shown { ShownSince self.now call (stopped_in self.now call filler)
            (line_at self.now call) }
    {
        let call = call as usize;
        let mut image = image_of(alloc, &self.first, &self.calls[..call], filler)?;
        fill(alloc, &mut image, &self.calls[call].deed, filler)?;
        MemDesk::holding(alloc, &image, &[])
    }

    // Whether the next call is to fail, or finds no room in the record.
    fn is_refused(&self) -> bool
        ensures { IsTrue result ↔ IsRefused self.now }
    {
        let call = self.calls();
        call as usize >= RECORD_ROOM || is_to_fail(&self.fails, u64::from(call))
    }

    // Records a call that leaves what a read gives.
    fn record_call(&mut self, deed: Deed)
        requires room { length self.old.calls < RECORD_ROOM }
        requires keeps { (file : List ℕ) → after_deed (deed_of deed) file ≡ file }
        requires nothing_written { written_by (deed_of deed) ≡ 0 }

        ensures after { self.new ≡ with_call self.old (deed_of deed) }
        ensures held { held_by self.new ≡ held_by self.old }
        ensures written { written_in self.new.calls ≡ written_in self.old.calls }
        ensures leaves { Follows (Takes (deed_of deed) (held_by self.old)) (MayLeave self.old)
            (MayLeave self.new) }
        ensures time { Elapses (length self.old.calls) (length self.new.calls) (ShownSince self.old)
            (ShownSince self.new)
            (Shows (MayLeave self.new) (Some self.old.said)) }
    {
        let said_before = self.said.len();
        self.calls.push_reserved(Recorded { said_before, deed });
    }

    // Records a call that fails, if there is room.
    fn record_failure(&mut self, deed: Deed)
        requires failed { IsOfFailure (deed_of deed) }

        ensures after { self.new ≡ with_call_if_room self.old (deed_of deed) }
        ensures held { held_by self.new ≡ held_by self.old }
        ensures said { self.new.said ≡ self.old.said }
        ensures written { written_in self.new.calls ≡ written_in self.old.calls }
        ensures device { self.new.device_faults ≡ self.old.device_faults }
        ensures line { self.new.line_faults ≡ self.old.line_faults }
        ensures leaves { Follows (Takes (deed_of deed) (held_by self.old)) (MayLeave self.old)
            (MayLeave self.new) }
        ensures time { Elapses (length self.old.calls) (length self.new.calls) (ShownSince self.old)
            (ShownSince self.new)
            (Shows (MayLeave self.new) (Some self.old.said)) }
    {
        if self.calls.len() < RECORD_ROOM {
            self.record_call(deed);
        }
    }

    // Counts a call of the file that failed, and records it if there is room.
    fn fail_call(&mut self, deed: Deed) -> Failed
        requires failed { IsOfFailure (deed_of deed) }

        ensures after { self.new ≡ after_failed_call self.old (deed_of deed) }
        ensures held { held_by self.new ≡ held_by self.old }
        ensures said { self.new.said ≡ self.old.said }
        ensures written { written_in self.new.calls ≡ written_in self.old.calls }
        ensures line { self.new.line_faults ≡ self.old.line_faults }
        ensures counted { self.old.device_faults ≤ self.new.device_faults }
        ensures cause { Rose self.old.device_faults self.new.device_faults }
        ensures leaves { Follows (Takes (deed_of deed) (held_by self.old)) (MayLeave self.old)
            (MayLeave self.new) }
        ensures time { Elapses (length self.old.calls) (length self.new.calls) (ShownSince self.old)
            (ShownSince self.new)
            (Shows (MayLeave self.new) (Some self.old.said)) }
    {
        self.record_failure(deed);
        self.device_faults = self.device_faults.saturating_add(1);
        Failed
    }

    // Counts a call of `say` that failed, and records it if there is room.
    fn fail_say(&mut self) -> Failed
        ensures after { self.new ≡ after_failed_say self.old }
        ensures held { held_by self.new ≡ held_by self.old }
        ensures said { self.new.said ≡ self.old.said }
        ensures written { written_in self.new.calls ≡ written_in self.old.calls }
        ensures device { self.new.device_faults ≡ self.old.device_faults }
        ensures counted { self.old.line_faults ≤ self.new.line_faults }
        ensures cause { Rose self.old.line_faults self.new.line_faults }
        ensures leaves { Follows (Takes nothing (held_by self.old)) (MayLeave self.old)
            (MayLeave self.new) }
        ensures time { Elapses (length self.old.calls) (length self.new.calls) (ShownSince self.old)
            (ShownSince self.new)
            (Shows (MayLeave self.new) (Some self.old.said)) }
    {
        self.record_failure(Deed::Nothing);
        self.line_faults = self.line_faults.saturating_add(1);
        Failed
    }
}

// Puts these bytes at this offset of a file, and says what was done for the record.
fn write(file: &mut Vec<u8>, at: u64, bytes: &[u8]) -> Result<Deed, AllocError>
    ensures ok { OnOk result (file.new.items ≡ overwritten 0 at bytes.now file.old.items) }
    ensures deed { IfOk result (λ deed. deed_of deed ≡ wrote at bytes.now) }
    ensures err { OnErr result (file.new.items ≡ file.old.items) }
{
    let copy = Vec::from_slice(*file.allocator(), bytes)?;
    overwrite(file, 0, at, bytes)?;
    Ok(Deed::Wrote { at, bytes: copy })
}

impl Desk for MemDesk {
    ghost held = { λ desk. Some (held_by desk) };

    ghost said = { λ desk. Some desk.said };

    ghost written = { λ desk. written_in desk.calls };

    ghost device_faults = { λ desk. desk.device_faults };

    ghost line_faults = { λ desk. desk.line_faults };

    ghost may_leave = { MayLeave };

    ghost moment = { λ desk. length desk.calls };

    ghost shown_since = { ShownSince };

    ghost told_together = { told_together };

    ghost counts_now = { counts_now };

    ghost shown_now = { shown_now };

    ghost only_now = { only_now };

    /// Fails exactly where the call is to fail, and where the record has no room. In the last case
    /// alone the call is not recorded.
    fn len(&mut self) -> Result<u64, Failed>
        ensures refused { IsErr result ↔ IsRefused self.old }
        ensures after { OnOk result (self.new ≡ with_call self.old nothing) }
        ensures after_failed { OnErr result (self.new ≡ after_failed_call self.old nothing) }

        // What each desk promises.
        ensures length { IfOk result (λ n. n ≡ length (held_by self.old)) }
        ensures most { IfOk result (λ n. n ≤ last_offset) }
        ensures held { held_by self.new ≡ held_by self.old }
        ensures said { self.new.said ≡ self.old.said }
        ensures written { written_in self.new.calls ≡ written_in self.old.calls }
        ensures line { self.new.line_faults ≡ self.old.line_faults }
        ensures counted { Counts result self.old.device_faults self.new.device_faults }
        ensures leaves { (file : List ℕ) → MayLeave self.new file → MayLeave self.old file }
        ensures time { Elapses (length self.old.calls) (length self.new.calls) (ShownSince self.old)
            (ShownSince self.new)
            (Shows (MayLeave self.new) (Some self.old.said)) }
    {
        if self.is_refused() {
            return Err(self.fail_call(Deed::Nothing));
        }
        self.record_call(Deed::Nothing);
        Ok(self.file.len() as u64)
    }

    /// Fails exactly where the call is to fail, and where the record has no room. In the last case
    /// alone the call is not recorded. After an `Err`, `out` is as it was.
    fn read_at(&mut self, at: u64, out: &mut [u8]) -> Result<(), Failed>
        requires range { at + length out.old ≤ last_offset }
        requires within { at + length out.old ≤ length (held_by self.old) }

        ensures refused { IsErr result ↔ IsRefused self.old }
        ensures after { OnOk result (self.new ≡ with_call self.old nothing) }
        ensures after_failed { OnErr result (self.new ≡ after_failed_call self.old nothing) }
        ensures out_kept { OnErr result (out.new ≡ out.old) }

        // What each desk promises.
        ensures read { OnOk result
            (out.new ≡ slice_range (held_by self.old) at (at + length out.old)) }
        ensures held { held_by self.new ≡ held_by self.old }
        ensures said { self.new.said ≡ self.old.said }
        ensures written { written_in self.new.calls ≡ written_in self.old.calls }
        ensures line { self.new.line_faults ≡ self.old.line_faults }
        ensures counted { Counts result self.old.device_faults self.new.device_faults }
        ensures leaves { (file : List ℕ) → MayLeave self.new file → MayLeave self.old file }
        ensures time { Elapses (length self.old.calls) (length self.new.calls) (ShownSince self.old)
            (ShownSince self.new)
            (Shows (MayLeave self.new) (Some self.old.said)) }
    {
        if self.is_refused() {
            return Err(self.fail_call(Deed::Nothing));
        }
        self.record_call(Deed::Nothing);
        let from = at as usize;
        out.copy_from_slice(&self.file[from..from + out.len()]);
        Ok(())
    }

    /// Fails where the call is to fail, where there is no memory, and where the record has no room.
    /// In the last case alone the call is not recorded. A call that fails writes nothing.
    fn write_at(&mut self, at: u64, bytes: &[u8]) -> Result<(), Failed>
        requires range { at + length bytes.now ≤ last_offset }

        ensures refused { IsRefused self.old → IsErr result }
        ensures after { OnOk result (self.new ≡ with_call self.old (wrote at bytes.now)) }
        ensures after_failed { OnErr result
            (self.new ≡ after_failed_call self.old (tore at (length bytes.now))) }

        // What each desk promises.
        ensures held { OnOk result
            (held_by self.new ≡ overwritten 0 at bytes.now (held_by self.old)) }
        ensures torn { OnErr result
            ((new : List ℕ) × (Some (held_by self.new) ≡ Some new)
            × Torn at (length bytes.now) (held_by self.old) new) }
        ensures written { Writes result (length bytes.now) (written_in self.old.calls)
            (written_in self.new.calls) }
        ensures said { self.new.said ≡ self.old.said }
        ensures line { self.new.line_faults ≡ self.old.line_faults }
        ensures counted { Counts result self.old.device_faults self.new.device_faults }
        ensures leaves { Follows (Torn at (length bytes.now)) (MayLeave self.old)
            (MayLeave self.new) }
        ensures time { Elapses (length self.old.calls) (length self.new.calls) (ShownSince self.old)
            (ShownSince self.new)
            (Shows (MayLeave self.new) (Some self.old.said)) }
    {
        if self.is_refused() {
            return Err(self.fail_call(Deed::Tore {
                at,
                len: bytes.len(),
            }));
        }
        let Ok(deed) = write(&mut self.file, at, bytes) else {
            return Err(self.fail_call(Deed::Tore {
                at,
                len: bytes.len(),
            }));
        };
        let said_before = self.said.len();
        self.calls.push_reserved(Recorded { said_before, deed });
        Ok(())
    }

    /// Fails exactly where the call is to fail, and where the record has no room. In the last case
    /// alone the call is not recorded.
    fn sync(&mut self) -> Result<(), Failed>
        ensures refused { IsErr result ↔ IsRefused self.old }
        ensures after { OnOk result (self.new ≡ with_call self.old synced) }
        ensures after_failed { OnErr result (self.new ≡ after_failed_call self.old nothing) }

        // What each desk promises.
        ensures durable { OnOk result (Only (held_by self.old) (MayLeave self.new)) }
        ensures held { held_by self.new ≡ held_by self.old }
        ensures said { self.new.said ≡ self.old.said }
        ensures written { written_in self.new.calls ≡ written_in self.old.calls }
        ensures line { self.new.line_faults ≡ self.old.line_faults }
        ensures counted { Counts result self.old.device_faults self.new.device_faults }
        ensures leaves { (file : List ℕ) → MayLeave self.new file → MayLeave self.old file }
        ensures time { Elapses (length self.old.calls) (length self.new.calls) (ShownSince self.old)
            (ShownSince self.new)
            (Shows (MayLeave self.new) (Some self.old.said)) }
    {
        if self.is_refused() {
            return Err(self.fail_call(Deed::Nothing));
        }
        self.record_call(Deed::Synced);
        Ok(())
    }

    /// Says the whole piece, or nothing: it fails where the call is to fail, where there is no
    /// memory, and where the record has no room. In the last case alone the call is not recorded.
    fn say(&mut self, bytes: &[u8]) -> Result<usize, Failed>
        requires { 0 < length bytes.now }

        ensures refused { IsRefused self.old → IsErr result }
        ensures whole { IfOk result (λ n. n ≡ length bytes.now) }
        ensures after { OnOk result (self.new ≡ after_say self.old bytes.now) }
        ensures after_failed { OnErr result (self.new ≡ after_failed_say self.old) }

        // What each desk promises.
        ensures within { IfOk result (λ n. (0 < n) × (n ≤ length bytes.now)) }
        ensures said { IfOk result (λ n. self.new.said ≡ self.old.said ++ take n bytes.now) }
        ensures kept { OnErr result (self.new.said ≡ self.old.said) }
        ensures held { held_by self.new ≡ held_by self.old }
        ensures written { written_in self.new.calls ≡ written_in self.old.calls }
        ensures device { self.new.device_faults ≡ self.old.device_faults }
        ensures counted { Counts result self.old.line_faults self.new.line_faults }
        ensures leaves { (file : List ℕ) → MayLeave self.new file → MayLeave self.old file }
        ensures time { Elapses (length self.old.calls) (length self.new.calls) (ShownSince self.old)
            (ShownSince self.new)
            (ShowsSaying (MayLeave self.new) (Some self.old.said) bytes.now (said_by result)) }
    {
        if self.is_refused() {
            return Err(self.fail_say());
        }
        let said_before = self.said.len();
        if self.said.extend_from_slice(bytes).is_err() {
            return Err(self.fail_say());
        }
        let deed = Deed::Nothing;
        self.calls.push_reserved(Recorded { said_before, deed });
        Ok(bytes.len())
    }
}
