// Which cause is told, where two stand together too, and that a refused line changes nothing.
use crate::told::{talked, told};
use pl_store::SLOT_LIMIT;
use std::test::Fail;
use trials_memory::Memory;

const CAUSES: &[(&[u8], &str)] = &[
    (b"folder\t2\tend\tF\t0", "item\t7\n"),
    (b"bookmark\t7\tend\thttps://a.example/\tA\t0", "item\t8\n"),
    // The parent, and behind it the position.
    (b"folder\t9\t5\tF\t0", "refused\t5\t9\n"),
    (b"folder\t8\t5\tF\t0", "refused\t6\t8\n"),
    (b"folder\t1\t9\tF\t0", "refused\t7\t1\n"),
    (
        b"bookmark\t4\t9\thttps://b.example/\tB\t0",
        "refused\t7\t4\n",
    ),
    (b"separator\t0\tend\t0", "refused\t5\t0\n"),
    (
        b"bookmark\t7\t2\thttps://b.example/\tB\t0",
        "refused\t8\t2\t1\n",
    ),
    (b"page\thttps://b.example/", "refused\t4\n"),
    // The item, then the parent, then whether it lies inside, then the position.
    (b"move\t9\t8\t5\t0", "refused\t5\t9\n"),
    (b"move\t2\t9\t5\t0", "refused\t7\t2\n"),
    (b"move\t7\t9\t5\t0", "refused\t5\t9\n"),
    (b"move\t7\t8\t5\t0", "refused\t6\t8\n"),
    (b"move\t7\t4\t5\t0", "refused\t7\t4\n"),
    (b"move\t7\t7\t5\t0", "refused\t9\t7\n"),
    (b"move\t8\t7\t1\t0", "refused\t8\t1\t0\n"),
    (b"retitle\t9\tT\t0", "refused\t5\t9\n"),
    (b"retitle\t6\tT\t0", "refused\t7\t6\n"),
    (b"remove\t9", "refused\t5\t9\n"),
    (b"remove\t1", "refused\t7\t1\n"),
    (b"remove\t4294967295", "refused\t5\t4294967295\n"),
    (b"list\t8", "refused\t6\t8\n"),
    (b"list\t7", "rows\t1\nbookmark\t8\tA\thttps://a.example/\n"),
    // A page that is asked for by a refused line has taken no id.
    (b"bookmark\t7\t0\thttps://c.example/\tC\t0", "item\t9\n"),
    (
        b"page\thttps://c.example/",
        "page\t2\t140\t0\t-\t0\t0\t1\thttps://c.example/\t\t\n",
    ),
];

#[test]
fn tells_the_first_cause(rt: HostRuntime) -> Result<(), Fail> {
    let memory = Memory::opening(rt.alloc(), SLOT_LIMIT)?;
    let _ = talked(&rt, rt.alloc(), memory, CAUSES)?;
    Ok(())
}

// A new store takes 6 slots, an item one, and a title one for each 120 bytes.
const ROOM: &[(&[u8], &str)] = &[
    (
        b"bookmark\t2\tend\thttps://a.example/\tA\t0",
        "refused\t12\t11\n",
    ),
    (b"page\thttps://a.example/", "refused\t4\n"),
    (b"folder\t2\tend\tF\t0", "item\t7\n"),
    (b"separator\t2\tend\t0", "refused\t12\t9\n"),
    (b"folder\t2\tend\tG\t0", "refused\t12\t10\n"),
    (
        b"bookmark\t2\tend\thttps://a.example/\t\t0",
        "refused\t12\t12\n",
    ),
    (b"folder\t2\t2\tG\t0", "refused\t8\t2\t1\n"),
    (b"retitle\t7\tABC\t0", "ok\n"),
    (b"list\t2", "rows\t1\nfolder\t7\tABC\t\n"),
    (b"remove\t7", "ok\n"),
    (b"separator\t2\tend\t0", "item\t8\n"),
    (b"separator\t2\tend\t0", "item\t9\n"),
    (b"retitle\t9\tT\t0", "refused\t12\t9\n"),
    (b"retitle\t2\tT\t0", "refused\t7\t2\n"),
];

#[test]
fn a_full_store_refuses(rt: HostRuntime) -> Result<(), Fail> {
    let memory = Memory::opening(rt.alloc(), 8)?;
    let _ = talked(&rt, rt.alloc(), memory, ROOM)?;
    Ok(())
}

// 11 slots hold the bookmark with its page, origin, address and title.
#[test]
fn a_bookmark_fits_to_the_slot(rt: HostRuntime) -> Result<(), Fail> {
    let alloc = rt.alloc();
    let memory = Memory::opening(alloc, 11)?;
    let bookmark = b"bookmark\t2\tend\thttps://a.example/\tA\t0".as_slice();
    let memory = told(&rt, alloc, memory, bookmark, "item\t7\n")?;
    let _ = told(
        &rt,
        alloc,
        memory,
        b"separator\t2\t0\t0",
        "refused\t12\t12\n",
    )?;
    Ok(())
}

// A title is cut at 4,096 bytes, and takes 35 slots then.
#[test]
fn cuts_titles(rt: HostRuntime) -> Result<(), Fail> {
    let alloc = rt.alloc();
    let memory = Memory::opening(alloc, 7 + 35)?;
    let memory = told(&rt, alloc, memory, b"folder\t2\t0\t\t0", "item\t7\n")?;
    let mut text = b"retitle\t7\t".to_vec(alloc)?;
    text.resize(10 + 5_000, b'x')?;
    text.extend_from_slice(b"\t0")?;
    let memory = told(&rt, alloc, memory, &text, "ok\n")?;
    let _ = told(
        &rt,
        alloc,
        memory,
        b"separator\t2\t0\t0",
        "refused\t12\t43\n",
    )?;
    Ok(())
}
