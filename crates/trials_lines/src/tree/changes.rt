// What is inserted, moved, given a title, removed and listed.
use crate::told::talked;
use pl_store::SLOT_LIMIT;
use std::test::Fail;
use trials_memory::Memory;

const FOLDERS: &[(&[u8], &str)] = &[
    (b"folder\t2\tend\tF\t0", "item\t7\n"),
    (b"folder\t7\tend\tG\t0", "item\t8\n"),
    (b"folder\t8\tend\tH\t0", "item\t9\n"),
    (b"move\t7\t9\tend\t0", "refused\t9\t7\n"),
    (b"separator\t7\t1\t0", "item\t10\n"),
    (b"separator\t7\t3\t0", "refused\t8\t3\t2\n"),
    (b"move\t10\t7\t2\t0", "refused\t8\t2\t1\n"),
    (b"move\t10\t7\t0\t0", "ok\n"),
    (b"retitle\t8\tK\t0", "ok\n"),
    (b"list\t7", "rows\t2\nseparator\t10\t\t\nfolder\t8\tK\t\n"),
    (b"remove\t8", "ok\n"),
    (b"list\t7", "rows\t1\nseparator\t10\t\t\n"),
    (b"list\t9", "refused\t5\t9\n"),
];

// Rows of each kind, with escapes; a separator's title is not told.
const LISTED: &[(&[u8], &str)] = &[
    (b"list\t2", "rows\t0\n"),
    (
        b"bookmark\t2\t0\thttps://a.example/\ta\\tb\\\\\t5",
        "item\t7\n",
    ),
    (b"separator\t2\t0\t5", "item\t8\n"),
    (b"folder\t2\t1\t\t5", "item\t9\n"),
    (b"retitle\t8\tS\t6", "ok\n"),
    (
        b"list\t2",
        "rows\t3\nseparator\t8\t\t\nfolder\t9\t\t\nbookmark\t7\ta\\tb\\\\\thttps://a.example/\n",
    ),
    (
        b"list\t1",
        "rows\t5\nfolder\t2\t\t\nfolder\t3\t\t\nfolder\t4\t\t\nfolder\t5\t\t\nfolder\t6\t\t\n",
    ),
    (b"list\t4", "rows\t0\n"),
    (b"list\t7", "refused\t6\t7\n"),
    (b"list\t10", "refused\t5\t10\n"),
];

// Each place of a list that grows.
const INSERTED: &[(&[u8], &str)] = &[
    (b"separator\t6\t0\t0", "item\t7\n"),
    (b"separator\t6\t0\t0", "item\t8\n"),
    (b"separator\t6\t1\t0", "item\t9\n"),
    (b"separator\t6\t3\t0", "item\t10\n"),
    (b"separator\t6\tend\t0", "item\t11\n"),
    (b"separator\t6\t6\t0", "refused\t8\t6\t5\n"),
    (
        b"separator\t6\t4294967295\t0",
        "refused\t8\t4294967295\t5\n",
    ),
    (
        b"list\t6",
        "rows\t5\nseparator\t8\t\t\nseparator\t9\t\t\nseparator\t7\t\t\nseparator\t10\t\t\n\
         separator\t11\t\t\n",
    ),
];

#[test]
fn changes_folders(rt: HostRuntime) -> Result<(), Fail> {
    let memory = Memory::opening(rt.alloc(), SLOT_LIMIT)?;
    let _ = talked(&rt, rt.alloc(), memory, FOLDERS)?;
    Ok(())
}

#[test]
fn lists_each_kind(rt: HostRuntime) -> Result<(), Fail> {
    let memory = Memory::opening(rt.alloc(), SLOT_LIMIT)?;
    let _ = talked(&rt, rt.alloc(), memory, LISTED)?;
    Ok(())
}

#[test]
fn inserts_at_each_place(rt: HostRuntime) -> Result<(), Fail> {
    let memory = Memory::opening(rt.alloc(), SLOT_LIMIT)?;
    let _ = talked(&rt, rt.alloc(), memory, INSERTED)?;
    Ok(())
}
