// What is at a store's path, behind its links.
ghost use Rattle.std.specs.Prelude.{◌≡◌, ◌↔◌, ◌⊎◌, IfErr, IsOk, IsTrue};
ghost use Rattle.std.specs.Fs.{file_type, IsFile};
ghost use Rattle.std.specs.IoError.{error_kind};
ghost use Rattle.std.specs.declared.io.ErrorKind.TheVariants.{InvalidInput, PermissionDenied};
ghost use Rattle.std.specs.declared.io.ErrorKind.TheVariants.{ReadOnlyFilesystem};

use crate::standard_streams::above_streams;
use std::fs::{self, File, Files, Metadata, OpenOptions};
use std::io::{self, ErrorKind};
use std::os::unix::fs::OpenOptionsExt;
use std::path::{Path, PathBuf};

// As many as the system itself follows.
const MAX_LINKS: usize = 40;

// A new store is its owner's alone to read and write.
const OWNER_ONLY: u32 = 0o600;

/// A name that is no link, and the folder that has it.
#[derive(Drop)]
pub struct Entry {
    name: PathBuf,
    folder: File,
    has_file: bool,
}

impl Entry {
    /// Where the path leads. The folder is opened here, so that one whose names can't be synced is
    /// an error before the file is read or written. So is anything there but a regular file.
    pub fn at(rt: &(impl Files<File = File> + AllocGlobal), path: &str) -> io::Result<Entry> {
        let has_file = has_file(rt, path)?;
        let name = behind_links(rt, path)?;
        let folder = File::open(rt, folder_of(name.as_path())?)?;
        Ok(Entry {
            name,
            folder: above_streams(folder)?,
            has_file,
        })
    }

    /// Whether the file was there.
    pub fn has_file(&self) -> bool {
        self.has_file
    }

    /// Opens the file to read and to write it. One that may not be written is opened to be read,
    /// and each write of it fails.
    pub fn open(&self, rt: &impl Files<File = File>) -> io::Result<File> {
        let to_write = OpenOptions::new()
            .read(true)
            .write(true)
            .open(rt, &self.name);
        match to_write {
            Err(error) if is_write_refused(&error) => File::open(rt, &self.name),
            opened => opened,
        }
    }

    /// Makes the file, for its owner alone. It is an error where one was made meanwhile.
    pub fn make(&self, rt: &impl Files<File = File>) -> io::Result<File> {
        OpenOptions::new()
            .read(true)
            .write(true)
            .create_new(true)
            .mode(OWNER_ONLY)
            .open(rt, &self.name)
    }

    /// Syncs the file's name in its folder, where its file system syncs folders.
    pub fn sync_name(&self) -> io::Result<()> {
        folder_synced(self.folder.sync_all())
    }
}

/// Only a regular file can be a store.
pub fn check_regular(found: &Metadata) -> io::Result<()>
    ensures { IsOk result ↔ IsFile (file_type found.now) }
{
    if found.is_file() {
        Ok(())
    } else {
        Err(ErrorKind::InvalidInput.into())
    }
}

// Whether the system refuses to write the file at all: by its mode, or since nothing of its file
// system may be written.
fn is_write_refused(error: &io::Error) -> bool
    ensures { IsTrue result ↔ (error_kind error.now ≡ PermissionDenied)
        ⊎ (error_kind error.now ≡ ReadOnlyFilesystem) }
{
    matches!(
        error.kind(),
        ErrorKind::PermissionDenied | ErrorKind::ReadOnlyFilesystem
    )
}

// By the answer to the sync of a folder. EINVAL says that its file system syncs none: there a new
// name lasts as soon as that system sees to it.
fn folder_synced(answer: io::Result<()>) -> io::Result<()>
    ensures synced { IsOk answer → IsOk result }
    ensures refused { IfErr answer (λ e. IsOk result ↔ (error_kind e ≡ InvalidInput)) }
{
    match answer {
        Err(error) if error.kind() == ErrorKind::InvalidInput => Ok(()),
        other => other,
    }
}

fn has_file(rt: &impl Files, path: &str) -> io::Result<bool> {
    match fs::metadata(rt, path) {
        Ok(found) => check_regular(&found).map(|_| true),
        Err(error) if error.kind() == ErrorKind::NotFound => Ok(false),
        Err(error) => Err(error),
    }
}

// Follows the links at the path's end. The system follows those before it.
fn behind_links(rt: &(impl Files + AllocGlobal), path: &str) -> io::Result<PathBuf> {
    let mut name = PathBuf::from_str(rt.alloc(), path)?;
    for _ in 0..MAX_LINKS {
        let Some(target) = target_of(rt, &name)? else {
            return Ok(name);
        };
        name.pop();
        name.push(target)?;
    }
    Err(ErrorKind::FilesystemLoop.into())
}

// What the link of this name says, where it is one.
fn target_of(rt: &(impl Files + AllocGlobal), name: &PathBuf) -> io::Result<Option<PathBuf>> {
    match fs::symlink_metadata(rt, name) {
        Ok(found) if found.is_symlink() => fs::read_link(rt, name).map(Some),
        Ok(_) => Ok(None),
        Err(error) if error.kind() == ErrorKind::NotFound => Ok(None),
        Err(error) => Err(error),
    }
}

fn folder_of(name: Path<'_>) -> io::Result<&str> {
    match name.parent() {
        Some(folder) if folder.as_str().is_empty() => Ok("."),
        Some(folder) => Ok(folder.as_str()),
        None => Err(ErrorKind::InvalidInput.into()),
    }
}
