// The file at a path, opened and locked at first need.
ghost use Rattle.std.specs.Prelude.{◌≡◌, ◌≤◌, ◌↔◌, false, IfOk, IsErr, IsTrue};
ghost use Rattle.pl_desk.specs.Desk.{last_offset};

use crate::entry::Entry;
use crate::held_file::HeldFile;
use crate::standard_streams::is_standard_error;
use std::fs::{self, File, Files};
use std::io::{self, ErrorKind};
use std::marker::Model;
use std::os::unix::fs::FileExt;

const LAST_OFFSET: u64 = (1 << 63) - 1;

/// A file that is opened at first need, and made by the first write where it was missing then. It
/// is held while it is open.
#[derive(Drop)]
pub struct StoreFile {
    path: String,
    // where the path led when the file was first needed
    entry: Option<Entry>,
    file: Option<HeldFile>,
    // the file's name in its folder was synced
    is_named: bool,
    // a sync failed: the system may count as written what the disk doesn't have
    is_in_doubt: bool,
}

// Whether a sync of it failed. Nothing else of it is told.
impl Model for StoreFile {
    ghost use Rattle.std.specs.Prelude.{Bool};

    ghost Value = { Bool };

    ghost view = { λ f. f.is_in_doubt };
}

impl StoreFile {
    pub fn at(path: String) -> StoreFile
        ensures { result ≡ false }
    {
        StoreFile {
            path,
            entry: None,
            file: None,
            is_named: false,
            is_in_doubt: false,
        }
    }

    /// Whether standard error is the file, as far as the system tells.
    pub fn is_standard_error(&self, rt: &impl Files) -> bool {
        match fs::metadata(rt, &self.path) {
            Ok(found) => is_standard_error(rt, &found),
            Err(_) => false,
        }
    }

    /// In bytes. A file that is missing in a folder that is there has none.
    pub fn len(&mut self, rt: &(impl Files<File = File> + AllocGlobal)) -> io::Result<u64>
        ensures most { IfOk result (λ n. n ≤ last_offset) }
        ensures doubt { self.new ≡ self.old }
    {
        self.open(rt)?;
        let len = match &self.file {
            Some(file) => file.as_file().metadata()?.len(),
            None => 0,
        };
        if len > LAST_OFFSET {
            return Err(ErrorKind::FileTooLarge.into());
        }
        Ok(len)
    }

    /// Fills `out` from the offset on. A range past the end is an error.
    pub fn read_at(
        &mut self,
        rt: &(impl Files<File = File> + AllocGlobal),
        at: u64,
        out: &mut [u8],
    ) -> io::Result<()>
        ensures doubt { self.new ≡ self.old }
    {
        let len = self.len(rt)?;
        if at > len || len - at < out.len() as u64 {
            return Err(ErrorKind::UnexpectedEof.into());
        }
        match &self.file {
            Some(file) => file.as_file().read_exact_at(out, at),
            None => Ok(()),
        }
    }

    /// Writes all of the bytes at the offset. It makes the file where it is missing, and no bytes
    /// past the end make it longer too.
    pub fn write_at(
        &mut self,
        rt: &(impl Files<File = File> + AllocGlobal),
        at: u64,
        bytes: &[u8],
    ) -> io::Result<()>
        ensures doubt { self.new ≡ self.old }
    {
        if bytes.is_empty() {
            return self.lengthen(rt, at);
        }
        self.open(rt)?;
        self.make(rt)?;
        match &self.file {
            Some(file) => file.as_file().write_all_at(bytes, at),
            None => Err(ErrorKind::NotFound.into()),
        }
    }

    // Makes the file where it is missing, and as long as this where it is shorter.
    fn lengthen(&mut self, rt: &(impl Files<File = File> + AllocGlobal), len: u64) -> io::Result<()>
        ensures doubt { self.new ≡ self.old }
    {
        let old = self.len(rt)?;
        self.make(rt)?;
        match &self.file {
            Some(file) if old < len => file.as_file().set_len(len),
            Some(_) => Ok(()),
            None => Err(ErrorKind::NotFound.into()),
        }
    }

    /// Syncs the content and the length, and the first time the file's name in its folder. After a
    /// sync that failed each later one fails too: the system then keeps no record of what it didn't
    /// write.
    pub fn sync(&mut self, rt: &(impl Files<File = File> + AllocGlobal)) -> io::Result<()>
        ensures refused { IsTrue self.old → IsErr result }
        ensures doubt { IsTrue self.new ↔ IsErr result }
    {
        if self.is_in_doubt {
            return Err(ErrorKind::Other.into());
        }
        self.is_in_doubt = true;
        self.sync_file(rt)?;
        self.is_in_doubt = false;
        Ok(())
    }

    fn sync_file(&mut self, rt: &(impl Files<File = File> + AllocGlobal)) -> io::Result<()>
        ensures doubt { self.new ≡ self.old }
    {
        self.open(rt)?;
        let Some(file) = &self.file else {
            return Ok(());
        };
        file.as_file().sync_all()?;
        if let Some(entry) = &self.entry
            && !self.is_named
        {
            entry.sync_name()?;
            self.is_named = true;
        }
        Ok(())
    }

    // Opens the file, if it is there and wasn't asked for yet. One that was missing stays so until
    // it is made: what was made meanwhile is another's.
    fn open(&mut self, rt: &(impl Files<File = File> + AllocGlobal)) -> io::Result<()>
        ensures doubt { self.new ≡ self.old }
    {
        if self.entry.is_some() {
            return Ok(());
        }
        let entry = Entry::at(rt, &self.path)?;
        if entry.has_file() {
            self.file = Some(HeldFile::hold(rt, &self.path, entry.open(rt)?)?);
        }
        self.entry = Some(entry);
        Ok(())
    }

    // Makes the file, if it was missing.
    fn make(&mut self, rt: &impl Files<File = File>) -> io::Result<()>
        ensures doubt { self.new ≡ self.old }
    {
        if self.file.is_some() {
            return Ok(());
        }
        let Some(entry) = &self.entry else {
            return Err(ErrorKind::NotFound.into());
        };
        self.file = Some(HeldFile::hold(rt, &self.path, entry.make(rt)?)?);
        Ok(())
    }
}
