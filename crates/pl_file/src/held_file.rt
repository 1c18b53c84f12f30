// A store's file with one holder at a time.
use crate::entry::check_regular;
use crate::standard_streams::{above_streams, is_file_at, is_standard_stream};
use std::fs::{File, Files};
use std::io::{self, ErrorKind};

/// A regular file that is locked until it is closed.
#[derive(Drop)]
pub struct HeldFile {
    file: File,
}

impl HeldFile {
    /// Locks the file that was opened at the path. It is an error where another open of it holds
    /// the lock, where its system has no locks, where the path leads elsewhere by now, and where it
    /// is a standard stream of this process.
    pub fn hold(rt: &impl Files, path: &str, file: File) -> io::Result<HeldFile> {
        let file = above_streams(file)?;
        file.try_lock()?;
        let held = file.metadata()?;
        check_regular(&held)?;
        if !is_file_at(rt, path, &held) {
            return Err(ErrorKind::NotFound.into());
        }
        if is_standard_stream(rt, &held) {
            return Err(ErrorKind::InvalidInput.into());
        }
        Ok(HeldFile { file })
    }

    pub fn as_file(&self) -> &File {
        &self.file
    }
}
