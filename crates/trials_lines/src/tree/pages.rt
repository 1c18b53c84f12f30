// The pages that gain or lose a bookmark: 75 for each sampled visit, and 140 where no visit counts.
use crate::told::talked;
use pl_store::SLOT_LIMIT;
use std::test::Fail;
use trials_memory::Memory;

// A page that is made, one that a visit finds, a script, and a query.
const GAINED: &[(&[u8], &str)] = &[
    (b"bookmark\t2\tend\thttps://a.example/\tA\t0", "item\t7\n"),
    (
        b"page\thttps://a.example/",
        "page\t1\t140\t0\t-\t0\t0\t1\thttps://a.example/\t\t\n",
    ),
    (
        b"visit\thttps://a.example/\t2\t0",
        "visit\t1\tpage\t1\tfrecency\t2075\n",
    ),
    (
        b"visit\thttps://b.example/\t1\t0",
        "visit\t2\tpage\t2\tfrecency\t100\n",
    ),
    (b"bookmark\t2\tend\thttps://b.example/\tB\t0", "item\t8\n"),
    (
        b"page\thttps://b.example/",
        "page\t2\t175\t1\t0\t0\t0\t1\thttps://b.example/\t\t\n",
    ),
    // A second one adds nothing.
    (b"bookmark\t3\tend\thttps://b.example/\tC\t0", "item\t9\n"),
    (
        b"page\thttps://b.example/",
        "page\t2\t175\t1\t0\t0\t0\t1\thttps://b.example/\t\t\n",
    ),
    (b"visit\tabout:blank\t1\t0", "refused\t2\n"),
    (b"bookmark\t5\t0\tjavascript:void(0)\tJ\t0", "item\t10\n"),
    (
        b"page\tjavascript:void(0)",
        "page\t3\t140\t0\t-\t0\t0\t1\tjavascript:void(0)\t\t\n",
    ),
    (b"bookmark\t5\t0\tplace:type=0\tQ\t0", "item\t11\n"),
    (
        b"page\tplace:type=0",
        "page\t4\t0\t0\t-\t0\t1\t1\tplace:type=0\t\t\n",
    ),
    // A download counts no visit.
    (
        b"visit\thttps://c.example/\t7\t0",
        "visit\t3\tpage\t5\tfrecency\t0\n",
    ),
    (b"bookmark\t6\t0\thttps://c.example/\tD\t0", "item\t12\n"),
    (
        b"page\thttps://c.example/",
        "page\t5\t140\t0\t0\t0\t0\t1\thttps://c.example/\t\t\n",
    ),
];

// The last bookmark of a page that was never visited, of one that was typed, of one that was
// downloaded; one of two; a folder with two pages.
const LOST: &[(&[u8], &str)] = &[
    (b"remove\t10", "ok\n"),
    (b"page\tjavascript:void(0)", "refused\t4\n"),
    (b"remove\t7", "ok\n"),
    (
        b"page\thttps://a.example/",
        "page\t1\t2000\t1\t0\t1\t0\t0\thttps://a.example/\t\t\n",
    ),
    (b"remove\t12", "ok\n"),
    (
        b"page\thttps://c.example/",
        "page\t5\t0\t0\t0\t0\t0\t0\thttps://c.example/\t\t\n",
    ),
    (b"remove\t8", "ok\n"),
    (
        b"page\thttps://b.example/",
        "page\t2\t175\t1\t0\t0\t0\t1\thttps://b.example/\t\t\n",
    ),
    (b"folder\t2\tend\tF\t0", "item\t13\n"),
    (b"folder\t13\tend\tG\t0", "item\t14\n"),
    (b"bookmark\t14\tend\thttps://a.example/\tA\t0", "item\t15\n"),
    (b"bookmark\t13\tend\thttps://d.example/\tD\t0", "item\t16\n"),
    (b"bookmark\t14\tend\thttps://c.example/\tC\t0", "item\t17\n"),
    (b"move\t9\t14\t0\t0", "ok\n"),
    (b"remove\t13", "ok\n"),
    (
        b"page\thttps://a.example/",
        "page\t1\t2000\t1\t0\t1\t0\t0\thttps://a.example/\t\t\n",
    ),
    (
        b"page\thttps://b.example/",
        "page\t2\t100\t1\t0\t0\t0\t0\thttps://b.example/\t\t\n",
    ),
    (
        b"page\thttps://c.example/",
        "page\t5\t0\t0\t0\t0\t0\t0\thttps://c.example/\t\t\n",
    ),
    (b"page\thttps://d.example/", "refused\t4\n"),
    // The page that went and comes again is another one.
    (b"bookmark\t2\tend\thttps://d.example/\tD\t0", "item\t18\n"),
    (
        b"page\thttps://d.example/",
        "page\t7\t140\t0\t-\t0\t0\t1\thttps://d.example/\t\t\n",
    ),
    (
        b"visit\thttps://d.example/x\t1\t9",
        "visit\t4\tpage\t8\tfrecency\t100\n",
    ),
];

#[test]
fn counts_bookmarks_of_pages(rt: HostRuntime) -> Result<(), Fail> {
    let memory = Memory::opening(rt.alloc(), SLOT_LIMIT)?;
    let memory = talked(&rt, rt.alloc(), memory, GAINED)?;
    let _ = talked(&rt, rt.alloc(), memory, LOST)?;
    Ok(())
}
