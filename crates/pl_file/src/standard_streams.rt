// The standard streams of this process, from which a store's file is kept apart.
use std::fs::{self, File, Files, Metadata};
use std::io;
use std::os::fd::AsRawFd;
use std::os::unix::fs::MetadataExt;

// Where Linux shows what the standard streams are open on.
const INPUT: &str = "/proc/self/fd/0";

const OUTPUT: &str = "/proc/self/fd/1";

const ERRORS: &str = "/proc/self/fd/2";

/// What is meant for a standard stream that was closed must not land in the file.
pub fn above_streams(file: File) -> io::Result<File> {
    if file.as_raw_fd() > 2 {
        return Ok(file);
    }
    file.try_clone()
}

/// Whether the input is read from the file, or what is said or told on standard error lands in it.
pub fn is_standard_stream(rt: &impl Files, file: &Metadata) -> bool {
    is_file_at(rt, INPUT, file) || is_file_at(rt, OUTPUT, file) || is_standard_error(rt, file)
}

/// Whether what is told on standard error lands in the file.
pub fn is_standard_error(rt: &impl Files, file: &Metadata) -> bool {
    is_file_at(rt, ERRORS, file)
}

/// Whether the path leads to the file, as far as the system tells.
pub fn is_file_at(rt: &impl Files, path: &str, file: &Metadata) -> bool {
    match fs::metadata(rt, path) {
        Ok(found) => found.dev() == file.dev() && found.ino() == file.ino(),
        Err(_) => false,
    }
}
