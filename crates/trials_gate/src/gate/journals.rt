// Journals that break the format, by one change each.
use super::*;
use std::test::Fail;

// A file of a gate's page, of pages 1 to 3, and of a journal of pages 2 and 3, which begins at
// 4,096 and whose entries begin there and at 5,128. The file ends at 6,160.
fn file_with_journal(alloc: Global) -> Result<Vec<u8>, AllocError> {
    let parts: [&[u8]; 9] = [
        b"\0\0\0\0\0\0\0\0\0\x10\0\0\0\0\0\0\x02\0\0\0\x04\0\0\0",
        &[0; 1000],
        &old_page(1),
        &old_page(2),
        &old_page(3),
        b"\x02\0\0\0\0\0\0\0",
        &new_page(2),
        b"\x03\0\0\0\0\0\0\0",
        &new_page(3),
    ];
    let mut file = Vec::new(alloc);
    for part in parts {
        file.extend_from_slice(part)?;
    }
    Ok(file)
}

// What breaks the format: these bytes at an offset, and a cut of the file at this length.
struct Broken {
    name: &'static str,
    at: usize,
    bytes: &'static [u8],
    len: usize,
}

// Each breaks one rule.
const BROKEN: [Broken; 18] = [
    Broken {
        name: "an offset past the end",
        at: 8,
        bytes: b"\x11\x18",
        len: 6160,
    },
    Broken {
        name: "an offset at the end",
        at: 8,
        bytes: b"\x10\x18",
        len: 6160,
    },
    Broken {
        name: "an offset behind any file",
        at: 8,
        bytes: &[255; 8],
        len: 6160,
    },
    Broken {
        name: "an offset inside the pages",
        at: 8,
        bytes: b"\x00\x08",
        len: 6160,
    },
    Broken {
        name: "a store that reaches into the journal",
        at: 20,
        bytes: b"\x05",
        len: 6160,
    },
    Broken {
        name: "an offset one entry later",
        at: 8,
        bytes: b"\x08\x14",
        len: 6160,
    },
    Broken {
        name: "one entry more",
        at: 16,
        bytes: b"\x03",
        len: 6160,
    },
    Broken {
        name: "as many entries as can be",
        at: 16,
        bytes: &[255; 4],
        len: 6160,
    },
    Broken {
        name: "no length",
        at: 20,
        bytes: b"\0",
        len: 6160,
    },
    Broken {
        name: "page 0",
        at: 4096,
        bytes: b"\0",
        len: 6160,
    },
    Broken {
        name: "two entries for one page",
        at: 4096,
        bytes: b"\x03",
        len: 6160,
    },
    Broken {
        name: "descending pages",
        at: 5128,
        bytes: b"\x01",
        len: 6160,
    },
    Broken {
        name: "a page at the length",
        at: 5128,
        bytes: b"\x04",
        len: 6160,
    },
    Broken {
        name: "a page past the length",
        at: 5128,
        bytes: b"\x05",
        len: 6160,
    },
    Broken {
        name: "a page past all lengths",
        at: 5132,
        bytes: b"\x01",
        len: 6160,
    },
    Broken {
        name: "a cut in the last byte",
        at: 4096,
        bytes: b"",
        len: 6159,
    },
    Broken {
        name: "a cut in an entry",
        at: 4096,
        bytes: b"",
        len: 5700,
    },
    Broken {
        name: "a cut between entries",
        at: 4096,
        bytes: b"",
        len: 5128,
    },
];

fn put(rt: &impl Abort, file: &mut Vec<u8>, at: usize, bytes: &[u8]) {
    assert!(rt; at <= file.len() && bytes.len() <= file.len() - at);
    file[at..at + bytes.len()].copy_from_slice(bytes);
}

// A recovery answers so, and leaves the file as it is.
fn expect_kept(
    rt: &impl Abort,
    alloc: Global,
    file: &[u8],
    answer: Result<(), GateError>,
    name: &str,
) -> Result<(), NoMemory> {
    let mut desk = MemDesk::holding(alloc, file, &[])?;
    assert_eq!(rt; recover(&mut desk), answer, "{name}");
    assert_eq!(rt; desk.bytes(), file, "{name}");
    Ok(())
}

// The gate of the broken file is bad where it is set, and there alone.
fn expect_broken(rt: &impl Abort, alloc: Global, broken: &Broken) -> Result<(), NoMemory> {
    let mut file = file_with_journal(alloc)?;
    put(rt, &mut file, broken.at, broken.bytes);
    file.truncate(broken.len);
    for (gate, answer) in [(0, Ok(())), (1, Err(GateError::BadGate)), (2, Ok(()))] {
        put(rt, &mut file, 0, &[gate]);
        expect_kept(rt, alloc, &file, answer, broken.name)?;
    }
    Ok(())
}

#[test]
fn a_set_gate_wants_a_good_journal(rt: HostRuntime) -> Result<(), Fail> {
    for broken in &BROKEN {
        expect_broken(&rt, rt.alloc(), broken)?;
    }
    Ok(())
}

#[test]
fn a_file_without_a_gate_is_bad(rt: HostRuntime) -> Result<(), Fail> {
    let alloc = rt.alloc();
    let bad = Err(GateError::BadGate);
    expect_kept(&rt, alloc, &[], bad, "an empty file")?;
    for gate in [0, 1, 2] {
        expect_kept(&rt, alloc, &[gate; 1023], bad, "a byte less than a page")?;
    }
    expect_kept(&rt, alloc, &[2; 1024], Ok(()), "a page")?;
    Ok(())
}

#[test]
fn a_good_journal_is_installed(rt: HostRuntime) -> Result<(), Fail> {
    let alloc = rt.alloc();
    let mut file = file_with_journal(alloc)?;
    expect_kept(&rt, alloc, &file, Ok(()), "a gate that is not set")?;
    let mut installed = file_with_journal(alloc)?;
    put(&rt, &mut installed, 2048, &new_page(2));
    put(&rt, &mut installed, 3072, &new_page(3));
    put(&rt, &mut file, 0, &[1]);
    let mut desk = MemDesk::holding(alloc, &file, &[])?;
    assert_eq!(rt; recover(&mut desk), Ok(()));
    assert_eq!(rt; desk.bytes(), installed.as_slice());
    Ok(())
}
