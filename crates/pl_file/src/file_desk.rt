ghost use Rattle.std.specs.Prelude.{◌≡◌, ◌↔◌, ℕ, ◌≤◌, ◌<◌, ◌+◌, List, Some, None, ◌++◌, length};
ghost use Rattle.std.specs.Prelude.{take, slice_range, IsTrue, IsErr, IfOk, IfSome, OnOk, OnErr};
ghost use Rattle.std.specs.Prelude.{MatchOption};
ghost use Rattle.std.specs.Option.{option_map};
ghost use Rattle.pl_desk.specs.Desk.{last_offset, overwritten, Torn, Follows, Only, Shows};
ghost use Rattle.pl_desk.specs.Desk.{ShowsSaying, said_by, Elapses};
ghost use Rattle.pl_desk.specs.Counts.{Counts, Writes, after_write, after_device_fault};
ghost use Rattle.pl_desk.specs.Counts.{after_line_fault};
ghost use Rattle.pl_desk.specs.Untold.{untold, AnyFile, AnyShown, told_together, counts_now};
ghost use Rattle.pl_desk.specs.Untold.{shown_now, only_now};
ghost use Rattle.pl_file.specs.FileDesk.{new_file, after_failed_access};

use crate::store_file::StoreFile;
use pl_base::NoMemory;
use pl_desk::{Calls, Desk, Failed};
use std::fs::{File, Files};
use std::io::{self, Write};
use std::marker::Model;

/// A store's file, which no other desk holds meanwhile, and standard output. It tells nothing of
/// its content. After a sync that failed each later one fails too.
#[derive(Drop)]
pub struct FileDesk<'a, R> {
    rt: &'a R,
    file: StoreFile,
    calls: Calls,
}

impl<'a, R> Model for FileDesk<'a, R> {
    ghost use Rattle.pl_file.specs.FileDesk.{FileState};

    ghost Value = { FileState };

    ghost view = { λ d. record { counts = d.calls; is_in_doubt = d.file } };
}

impl<'a, R: AllocGlobal> FileDesk<'a, R> {
    /// The file is opened and locked at first need, before a byte of it is read or written. A
    /// missing file reads as empty, and the first write makes it, for its owner alone. Of a file
    /// that may only be read each write fails.
    pub fn at(rt: &'a R, path: &str) -> Result<FileDesk<'a, R>, NoMemory>
        ensures { IfOk result (λ desk. desk ≡ new_file) }
    {
        Ok(FileDesk {
            rt,
            file: StoreFile::at(String::from_str(rt.alloc(), path)?),
            calls: Calls::new(),
        })
    }
}

impl<R: Files> FileDesk<'_, R> {
    /// Whether what is told on standard error lands in the file, as far as the system tells.
    pub fn is_standard_error(&self) -> bool {
        self.file.is_standard_error(self.rt)
    }
}

impl<R: Files<File = File> + Print + AllocGlobal> Desk for FileDesk<'_, R> {
    ghost held = { untold };

    ghost said = { untold };

    ghost written = { λ d. d.counts.written };

    ghost device_faults = { λ d. d.counts.device_faults };

    ghost line_faults = { λ d. d.counts.line_faults };

    ghost may_leave = { AnyFile };

    ghost moment = { λ _. 0 };

    ghost shown_since = { AnyShown };

    ghost told_together = { told_together };

    ghost counts_now = { counts_now };

    ghost shown_now = { shown_now };

    ghost only_now = { only_now };

    fn len(&mut self) -> Result<u64, Failed>
        ensures after { OnOk result (self.new ≡ self.old) }
        ensures after_failed { OnErr result (self.new ≡ after_failed_access self.old) }

        // What each desk promises.
        ensures length { IfOk result (λ n. IfSome (untold self.old) (λ file. n ≡ length file)) }
        ensures most { IfOk result (λ n. n ≤ last_offset) }
        ensures written { self.new.counts.written ≡ self.old.counts.written }
        ensures line { self.new.counts.line_faults ≡ self.old.counts.line_faults }
        ensures counted { Counts result
            self.old.counts.device_faults self.new.counts.device_faults }
        ensures time { Elapses 0 0 (AnyShown self.old) (AnyShown self.new)
            (Shows (AnyFile self.new) (untold self.old)) }
    {
        let answer = self.file.len(self.rt);
        self.calls.count(answer)
    }

    fn read_at(&mut self, at: u64, out: &mut [u8]) -> Result<(), Failed>
        ensures after { OnOk result (self.new ≡ self.old) }
        ensures after_failed { OnErr result (self.new ≡ after_failed_access self.old) }

        // What each desk promises.
        ensures read { OnOk result
            (IfSome (untold self.old)
            (λ file. out.new ≡ slice_range file at (at + length out.old))) }
        ensures written { self.new.counts.written ≡ self.old.counts.written }
        ensures line { self.new.counts.line_faults ≡ self.old.counts.line_faults }
        ensures counted { Counts result
            self.old.counts.device_faults self.new.counts.device_faults }
        ensures time { Elapses 0 0 (AnyShown self.old) (AnyShown self.new)
            (Shows (AnyFile self.new) (untold self.old)) }
    {
        let answer = self.file.read_at(self.rt, at, out);
        self.calls.count(answer)
    }

    /// A write with which the bytes written would pass 2^64 - 1 is a failed call.
    fn write_at(&mut self, at: u64, bytes: &[u8]) -> Result<(), Failed>
        ensures after { OnOk result
            (self.new.counts ≡ after_write self.old.counts (length bytes.now)) }
        ensures after_failed { OnErr result (self.new ≡ after_failed_access self.old) }
        ensures doubt { self.new.is_in_doubt ≡ self.old.is_in_doubt }

        // What each desk promises.
        ensures held { OnOk result
            (untold self.new ≡ option_map (overwritten 0 at bytes.now) (untold self.old)) }
        ensures torn { OnErr result
            (MatchOption (untold self.old) (untold self.new ≡ None)
            (λ old. (new : List ℕ) × (untold self.new ≡ Some new)
            × Torn at (length bytes.now) old new)) }
        ensures written { Writes result (length bytes.now) self.old.counts.written
            self.new.counts.written }
        ensures line { self.new.counts.line_faults ≡ self.old.counts.line_faults }
        ensures counted { Counts result
            self.old.counts.device_faults self.new.counts.device_faults }
        ensures leaves { Follows (Torn at (length bytes.now))
            (AnyFile self.old) (AnyFile self.new) }
        ensures time { Elapses 0 0 (AnyShown self.old) (AnyShown self.new)
            (Shows (AnyFile self.new) (untold self.old)) }
    {
        if !self.calls.has_room(bytes.len()) {
            return self.calls.count(Err(Failed));
        }
        let answer = self.file.write_at(self.rt, at, bytes);
        self.calls.count_write(bytes.len(), answer)
    }

    fn sync(&mut self) -> Result<(), Failed>
        ensures refused { IsTrue self.old.is_in_doubt → IsErr result }
        ensures doubt { IsTrue self.new.is_in_doubt ↔ IsErr result }
        ensures after { OnOk result (self.new.counts ≡ self.old.counts) }
        ensures after_failed { OnErr result (self.new.counts ≡ after_device_fault self.old.counts) }

        // What each desk promises.
        ensures durable { OnOk result
            (IfSome (untold self.old) (λ file. Only file (AnyFile self.new))) }
        ensures written { self.new.counts.written ≡ self.old.counts.written }
        ensures line { self.new.counts.line_faults ≡ self.old.counts.line_faults }
        ensures counted { Counts result
            self.old.counts.device_faults self.new.counts.device_faults }
        ensures time { Elapses 0 0 (AnyShown self.old) (AnyShown self.new)
            (Shows (AnyFile self.new) (untold self.old)) }
    {
        let answer = self.file.sync(self.rt);
        self.calls.count(answer)
    }

    fn say(&mut self, bytes: &[u8]) -> Result<usize, Failed>
        ensures after { OnOk result (self.new ≡ self.old) }
        ensures after_failed { OnErr result (self.new.counts ≡ after_line_fault self.old.counts) }
        ensures doubt { self.new.is_in_doubt ≡ self.old.is_in_doubt }

        // What each desk promises.
        ensures said { IfOk result
            (λ n. untold self.new ≡ option_map (λ before. before ++ take n bytes.now)
            (untold self.old)) }
        ensures kept { OnErr result (untold self.new ≡ untold self.old) }
        ensures within { IfOk result (λ n. (0 < n) × (n ≤ length bytes.now)) }
        ensures written { self.new.counts.written ≡ self.old.counts.written }
        ensures device { self.new.counts.device_faults ≡ self.old.counts.device_faults }
        ensures counted { Counts result self.old.counts.line_faults self.new.counts.line_faults }
        ensures time { Elapses 0 0 (AnyShown self.old) (AnyShown self.new)
            (ShowsSaying (AnyFile self.new) (untold self.old) bytes.now (said_by result)) }
    {
        let answer = io::writer(self.rt).write(bytes);
        self.calls.count_say(answer)
    }
}
