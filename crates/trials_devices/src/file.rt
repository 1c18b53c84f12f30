// A real file: made, written, synced, locked and opened again, and what is no file.

use pl_desk::Desk;
use pl_file::FileDesk;
use std::fs::{self, Permissions};
use std::os::unix::fs::{PermissionsExt, symlink};
use std::process::Abort;
use std::test::Fail;

// A folder of this name, with nothing in it.
fn empty_folder(files: &HostRuntime, folder: &str) -> Result<(), Fail> {
    let _ = fs::remove_dir_all(files, folder);
    fs::create_dir(files, folder)?;
    Ok(())
}

// The calls of a desk, each with whether it succeeds.

fn len(desk: &mut FileDesk<HostRuntime>) -> Option<u64> {
    desk.len().ok()
}

fn sync(desk: &mut FileDesk<HostRuntime>) -> bool {
    desk.sync().is_ok()
}

fn write(rt: &impl Abort, desk: &mut FileDesk<HostRuntime>, at: u64, bytes: &[u8]) -> bool {
    assert!(rt; at < 100);
    assert!(rt; bytes.len() < 100);
    desk.write_at(at, bytes).is_ok()
}

fn read(rt: &impl Abort, desk: &mut FileDesk<HostRuntime>, at: u64, out: &mut [u8]) -> bool {
    assert!(rt; at < 100);
    assert!(rt; out.len() < 100);
    desk.read_at(at, out).is_ok()
}

// A read from this offset on gives these bytes.
fn expect_bytes(rt: &impl Abort, desk: &mut FileDesk<HostRuntime>, at: u64, bytes: &[u8]) {
    let mut back = [9; 8];
    assert!(rt; bytes.len() <= back.len());
    let out = &mut back[..bytes.len()];
    assert!(rt; read(rt, desk, at, out));
    assert_eq!(rt; *out, *bytes);
}

// Its owner alone may read and write the file at this path.
fn expect_private(rt: &impl Abort, files: &HostRuntime, path: &str) -> Result<(), Fail> {
    let mode = fs::metadata(files, path)?.permissions().mode();
    assert_eq!(rt; mode & 0o777, 0o600);
    Ok(())
}

// A file at this path holds these bytes.
fn expect_file(rt: &impl Abort, files: &HostRuntime, path: &str, bytes: &[u8]) -> Result<(), Fail> {
    let mut desk = FileDesk::at(files, path)?;
    expect_bytes(rt, &mut desk, 0, bytes);
    Ok(())
}

// A missing file reads as empty.
fn expect_none(rt: &impl Abort, desk: &mut FileDesk<HostRuntime>) {
    assert_eq!(rt; len(desk), Some(0));
    assert!(rt; !read(rt, desk, 0, &mut [0; 1]));
    assert!(rt; read(rt, desk, 0, &mut []));
    assert!(rt; sync(desk));
}

const WRITES: &[(u64, &[u8])] = &[(2, b"abc"), (1, b"x"), (7, b"")];

// Past the end a gap reads as zero bytes, with no bytes to write too.
fn write_with_gaps(rt: &impl Abort, desk: &mut FileDesk<HostRuntime>) {
    for (at, bytes) in WRITES {
        assert!(rt; write(rt, desk, *at, bytes));
    }
    assert!(rt; sync(desk));
    assert_eq!(rt; len(desk), Some(7));
    expect_bytes(rt, desk, 1, b"xabc\0\0");
    assert!(rt; !read(rt, desk, 2, &mut [9; 6]));
}

// A desk at this path reads none, makes none at that, and writes one.
fn make_new(rt: &impl Abort, files: &HostRuntime, path: &str) -> Result<(), Fail> {
    let mut desk = FileDesk::at(files, path)?;
    expect_none(rt, &mut desk);
    assert!(rt; matches!(fs::exists(files, path), Ok(false)));
    write_with_gaps(rt, &mut desk);
    Ok(())
}

#[test]
fn writes_syncs_reads_and_opens_again(rt: HostRuntime) -> Result<(), Fail> {
    const FOLDER: &str = "pl_file_test";
    const PATH: &str = "pl_file_test/store";
    empty_folder(&rt, FOLDER)?;
    make_new(&rt, &rt, PATH)?;
    expect_private(&rt, &rt, PATH)?;
    expect_file(&rt, &rt, PATH, b"\0xabc\0\0")?;
    fs::remove_dir_all(&rt, FOLDER)?;
    Ok(())
}

// Each call fails of a desk at this path.
fn expect_no_file(rt: &impl Abort, files: &HostRuntime, path: &str) -> Result<(), Fail> {
    let mut desk = FileDesk::at(files, path)?;
    assert_eq!(rt; len(&mut desk), None, "{path}");
    assert!(rt; !read(rt, &mut desk, 0, &mut []), "{path}");
    assert!(rt; !write(rt, &mut desk, 0, b"lost"), "{path}");
    assert!(rt; !sync(&mut desk), "{path}");
    Ok(())
}

const NO_FILES: &[&str] = &[
    "",
    "pl_file_paths",
    "/dev/null",
    "pl_file_paths/none/store",
    "pl_file_paths/file/store",
    "pl_file_paths/astray",
    "pl_file_paths/loop",
];

#[test]
fn fails_where_there_can_be_no_file(rt: HostRuntime) -> Result<(), Fail> {
    const FOLDER: &str = "pl_file_paths";
    empty_folder(&rt, FOLDER)?;
    fs::write(&rt, "pl_file_paths/file", b"kept".as_slice())?;
    symlink(&rt, "none/store", "pl_file_paths/astray")?;
    symlink(&rt, "loop", "pl_file_paths/loop")?;
    for path in NO_FILES {
        expect_no_file(&rt, &rt, path)?;
    }
    assert_eq!(rt; fs::metadata(&rt, "pl_file_paths/file")?.len(), 4);
    fs::remove_dir_all(&rt, FOLDER)?;
    Ok(())
}

// A file that may only be read is read and synced.
#[test]
fn reads_what_may_only_be_read(rt: HostRuntime) -> Result<(), Fail> {
    const FOLDER: &str = "pl_file_read";
    const PATH: &str = "pl_file_read/store";
    empty_folder(&rt, FOLDER)?;
    fs::write(&rt, PATH, b"kept".as_slice())?;
    fs::set_permissions(&rt, PATH, Permissions::from_mode(0o400))?;
    let mut desk = FileDesk::at(&rt, PATH)?;
    expect_bytes(&rt, &mut desk, 0, b"kept");
    assert!(rt; sync(&mut desk));
    fs::remove_dir_all(&rt, FOLDER)?;
    Ok(())
}

const HELD: &str = "pl_file_held/store";

const LINK: &str = "pl_file_held/link";

// The file is where the link leads, and a desk that has it leaves it to no other.
fn expect_held(rt: &impl Abort, files: &HostRuntime) -> Result<(), Fail> {
    assert!(rt; fs::symlink_metadata(files, HELD)?.is_file());
    expect_no_file(rt, files, HELD)?;
    expect_no_file(rt, files, LINK)
}

fn make_and_hold(rt: &impl Abort, files: &HostRuntime) -> Result<(), Fail> {
    let mut first = FileDesk::at(files, LINK)?;
    assert!(rt; write(rt, &mut first, 0, b"kept"));
    assert!(rt; sync(&mut first));
    expect_held(rt, files)
}

// A desk that found no file writes over none that another made meanwhile.
fn expect_late(rt: &impl Abort, files: &HostRuntime) -> Result<(), Fail> {
    let mut late = FileDesk::at(files, HELD)?;
    assert_eq!(rt; len(&mut late), Some(0));
    let made = make_and_hold(rt, files);
    assert!(rt; !write(rt, &mut late, 0, b"lost"));
    made
}

#[test]
fn one_desk_holds_a_file(rt: HostRuntime) -> Result<(), Fail> {
    const FOLDER: &str = "pl_file_held";
    empty_folder(&rt, FOLDER)?;
    symlink(&rt, "store", LINK)?;
    expect_late(&rt, &rt)?;
    expect_file(&rt, &rt, HELD, b"kept")?;
    fs::remove_dir_all(&rt, FOLDER)?;
    Ok(())
}
