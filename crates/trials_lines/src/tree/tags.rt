// Tags that pages get and lose.
use crate::told::talked;
use pl_store::SLOT_LIMIT;
use std::test::Fail;
use trials_memory::Memory;

// The first spelling stays; a page that was never visited has 140 by a tag, and is no bookmark.
const RED: &[(&[u8], &str)] = &[
    (b"tag\thttps://a.example/\tRed\t0", "ok\n"),
    (
        b"page\thttps://a.example/",
        "page\t1\t140\t0\t-\t0\t0\t0\thttps://a.example/\t\tRed\n",
    ),
    (b"tag\thttps://a.example/\tRED\t0", "refused\t15\n"),
    (
        b"visit\thttps://a.example/\t1\t0",
        "visit\t1\tpage\t1\tfrecency\t175\n",
    ),
    (b"list\t4", "rows\t1\nfolder\t7\tRed\t\n"),
    (b"list\t7", "rows\t1\nbookmark\t8\t\thttps://a.example/\n"),
    (b"tag\thttps://b.example/\t red \t5", "ok\n"),
    (
        b"list\t7",
        "rows\t2\nbookmark\t8\t\thttps://a.example/\nbookmark\t9\t\thttps://b.example/\n",
    ),
    (b"untag\thttps://a.example/\tred", "ok\n"),
    (b"untag\thttps://a.example/\tred", "refused\t18\n"),
    (
        b"page\thttps://a.example/",
        "page\t1\t100\t1\t0\t0\t0\t0\thttps://a.example/\t\t\n",
    ),
    (b"list\t4", "rows\t1\nfolder\t7\tRed\t\n"),
    // With the last entry the folder goes, and the page, which had nothing else.
    (b"untag\thttps://b.example/\tReD", "ok\n"),
    (b"page\thttps://b.example/", "refused\t4\n"),
    (b"untag\thttps://b.example/\tRed", "refused\t4\n"),
    (b"list\t4", "rows\t0\n"),
    (b"list\t7", "refused\t5\t7\n"),
    (b"tag\thttps://a.example/\tRED\t0", "ok\n"),
    (b"list\t4", "rows\t1\nfolder\t10\tRED\t\n"),
];

// Names that fold alike are one; tags are told by the bytes of their folds.
const FOLDS: &[(&[u8], &str)] = &[
    (b"tag\thttps://a.example/\tStra\xc3\x9fe\t0", "ok\n"),
    (b"tag\thttps://a.example/\tSTRASSE\t0", "refused\t15\n"),
    (b"tag\thttps://a.example/\tb\t0", "ok\n"),
    (b"tag\thttps://a.example/\tA\t0", "ok\n"),
    (b"tag\thttps://b.example/\tstrasse\t0", "ok\n"),
    (
        b"page\thttps://a.example/",
        "page\t1\t140\t0\t-\t0\t0\t0\thttps://a.example/\t\tA,b,Straße\n",
    ),
    (
        b"list\t4",
        "rows\t3\nfolder\t7\tStraße\t\nfolder\t9\tb\t\nfolder\t11\tA\t\n",
    ),
    // A bookmark beside the tags: what goes first leaves the page and what it counts.
    (b"bookmark\t2\t0\thttps://a.example/\tB\t0", "item\t14\n"),
    (b"untag\thttps://a.example/\ta", "ok\n"),
    (b"untag\thttps://a.example/\tB", "ok\n"),
    (b"untag\thttps://a.example/\tstrasse", "ok\n"),
    (
        b"page\thttps://a.example/",
        "page\t1\t140\t0\t-\t0\t0\t1\thttps://a.example/\t\t\n",
    ),
    (b"list\t4", "rows\t1\nfolder\t7\tStraße\t\n"),
    (b"remove\t14", "ok\n"),
    (b"page\thttps://a.example/", "refused\t4\n"),
    // What is tagged stays as it is by all other lines.
    (b"remove\t7", "refused\t7\t7\n"),
    (b"retitle\t13\tT\t0", "refused\t7\t13\n"),
    (b"folder\t7\t0\tF\t0", "refused\t7\t7\n"),
];

#[test]
fn tags_pages(rt: HostRuntime) -> Result<(), Fail> {
    let memory = Memory::opening(rt.alloc(), SLOT_LIMIT)?;
    let _ = talked(&rt, rt.alloc(), memory, RED)?;
    Ok(())
}

#[test]
fn folds_names_of_tags(rt: HostRuntime) -> Result<(), Fail> {
    let memory = Memory::opening(rt.alloc(), SLOT_LIMIT)?;
    let _ = talked(&rt, rt.alloc(), memory, FOLDS)?;
    Ok(())
}
