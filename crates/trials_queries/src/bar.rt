// What the address bar offers, by hand.
use crate::listed::{listed, store_of};
use crate::told::talked;
use pl_store::SLOT_LIMIT;
use std::test::Fail;
use trials_memory::Memory;

// Pages 1 to 5 have from one to five visits, and titles with `fire` at different places; 6 has it
// in its address alone; 7 has no frecency; 8 is a bookmark and 9 a tag, both without visits; 10 and
// 11 have it in title and address; 12 has two bookmarks, and 13 one without a title; 14 is hidden,
// as it led to 15.
const FIRES: &[&[u8]] = &[
    b"visit\thttps://a.example/\t1\t0",
    b"title\thttps://a.example/\tfire brigade",
    b"visit\thttps://b.example/\t1\t0",
    b"visit\thttps://b.example/\t1\t1",
    b"title\thttps://b.example/\t2fire",
    b"visit\thttps://c.example/\t1\t0",
    b"visit\thttps://c.example/\t1\t1",
    b"visit\thttps://c.example/\t1\t2",
    b"title\thttps://c.example/\t\xc3\xa9fire",
    b"visit\thttps://d.example/\t1\t0",
    b"visit\thttps://d.example/\t1\t1",
    b"visit\thttps://d.example/\t1\t2",
    b"visit\thttps://d.example/\t1\t3",
    b"title\thttps://d.example/\twildfire, fire",
    b"visit\thttps://e.example/\t1\t0",
    b"visit\thttps://e.example/\t1\t1",
    b"visit\thttps://e.example/\t1\t2",
    b"visit\thttps://e.example/\t1\t3",
    b"visit\thttps://e.example/\t1\t4",
    b"title\thttps://e.example/\twildfire",
    b"visit\thttps://fire.example/%41x%FF\t1\t0",
    b"visit\thttps://g.example/\t7\t0",
    b"title\thttps://g.example/\tfire",
    b"bookmark\t2\tend\thttps://h.example/\tfire mark\t0",
    b"tag\thttps://i.example/\tFiretag\t0",
    b"visit\thttps://fire.test/\t1\t0",
    b"title\thttps://fire.test/\tfire",
    b"visit\thttps://wildfire.test/\t1\t0",
    b"title\thttps://wildfire.test/\tfire",
    b"visit\thttps://l.example/\t1\t0",
    b"title\thttps://l.example/\town",
    b"bookmark\t2\tend\thttps://l.example/\tmarked\t0",
    b"bookmark\t2\tend\thttps://l.example/\tsecond\t0",
    b"visit\thttps://m.example/\t1\t0",
    b"title\thttps://m.example/\town",
    b"bookmark\t2\tend\thttps://m.example/\t\t0",
    b"visit\thttps://n.example/\t1\t0",
    b"title\thttps://n.example/\thid",
    b"visit\thttps://o.example/\t5\t1\t22",
];

// What is typed, and the ids of the pages.
const OFFERS: &[(&[u8], &[u32])] = &[
    // Words at the front of a title, a tag or an address, behind a digit, behind `é`, and at a
    // second place; then the one within a word.
    (b"bar\t20\tfire", &[4, 3, 2, 9, 8, 11, 10, 6, 1, 5]),
    (b"bar\t20\tFIRE", &[4, 3, 2, 9, 8, 11, 10, 6, 1, 5]),
    (b"bar\t1\tfire", &[4]),
    (b"bar\t1000\tfire", &[4, 3, 2, 9, 8, 11, 10, 6, 1, 5]),
    (b"bar\t3\tfire", &[4, 3, 2]),
    (b"bar\t10\t\xc3\x89FIRE", &[3]),
    (b"bar\t20\tire", &[5, 4, 3, 2, 9, 8, 11, 10, 6, 1]),
    // Blanks alone ask for all that have a frecency, hidden ones too.
    (
        b"bar\t20\t  ",
        &[5, 4, 3, 2, 13, 12, 9, 8, 15, 11, 10, 6, 1, 14],
    ),
    (
        b"bar\t20\t",
        &[5, 4, 3, 2, 13, 12, 9, 8, 15, 11, 10, 6, 1, 14],
    ),
    (b"bar\t10\thid", &[14]),
    // Each mark, and two at once.
    (b"bar\t20\t^", &[5, 4, 3, 2, 13, 12, 15, 11, 10, 6, 1, 14]),
    (b"bar\t10\t*", &[13, 12, 8]),
    (b"bar\t10\t+", &[9]),
    (b"bar\t10\t* +", &[]),
    (b"bar\t10\t^ *", &[13, 12]),
    (b"bar\t10\t^ +", &[]),
    (b"bar\t10\t* ^ *", &[13, 12]),
    (b"bar\t20\t^ fire", &[4, 3, 2, 11, 10, 6, 1, 5]),
    (b"bar\t10\tfire *", &[8]),
    (b"bar\t10\tfire +", &[9]),
    (b"bar\t20\t# fire", &[4, 3, 2, 9, 8, 11, 10, 1, 5]),
    (b"bar\t10\tfire $", &[10, 6, 11]),
    (b"bar\t10\t# $ fire", &[10, 11]),
    (b"bar\t10\t$ fire #", &[10, 11]),
    (b"bar\t10\t#", &[5, 4, 3, 2, 13, 12, 9, 8, 15, 11]),
    (b"bar\t10\t* $ example", &[13, 12, 8]),
    (b"bar\t10\t+ # fire", &[9]),
    // A mark within a piece is no mark; `%` and `?` are words.
    (b"bar\t10\t#fire", &[]),
    (b"bar\t10\tfire+", &[]),
    (b"bar\t10\t^^", &[]),
    (b"bar\t10\t%", &[]),
    (b"bar\t10\t?", &[]),
    // Two words: both on a boundary, or else anywhere.
    (b"bar\t20\tfire example", &[4, 3, 2, 9, 8, 6, 1, 5]),
    (b"bar\t10\tfire wild", &[4, 11, 5]),
    (b"bar\t10\twild fire", &[4, 11, 5]),
    (b"bar\t10\tfire nowhere", &[]),
    // Escapes are decoded, and what is no UTF-8 is U+FFFD; the prefix is not searched.
    (b"bar\t10\tax", &[6]),
    (b"bar\t10\tax\xef\xbf\xbd", &[6]),
    (b"bar\t10\t%41", &[]),
    (b"bar\t10\thttps", &[]),
    // The title of the freshest bookmark, of two the one with the greater id; the page's own where
    // that is empty.
    (b"bar\t10\town", &[13]),
    (b"bar\t10\tmarked", &[]),
    (b"bar\t10\tsecond", &[12]),
];

// Pages are told with their own titles, those on a boundary before those that rank higher.
const ROWS: &[(&[u8], &str)] = &[
    (
        b"visit\thttps://www.mozilla.org/en-US/firefox/new/\t2\t0",
        "visit\t1\tpage\t1\tfrecency\t2000\n",
    ),
    (
        b"title\thttps://www.mozilla.org/en-US/firefox/new/\tDownload Firefox",
        "ok\n",
    ),
    (
        b"visit\thttps://example.com/wildfire\t1\t0",
        "visit\t2\tpage\t2\tfrecency\t100\n",
    ),
    (
        b"visit\thttps://fire.example/\t1\t0",
        "visit\t3\tpage\t3\tfrecency\t100\n",
    ),
    (
        b"bar\t10\tFIRE",
        "rows\t3\n\
         page\t1\t2000\thttps://www.mozilla.org/en-US/firefox/new/\tDownload Firefox\n\
         page\t3\t100\thttps://fire.example/\t\n\
         page\t2\t100\thttps://example.com/wildfire\t\n",
    ),
    (
        b"bar\t10\tfire #",
        "rows\t1\n\
         page\t1\t2000\thttps://www.mozilla.org/en-US/firefox/new/\tDownload Firefox\n",
    ),
    (b"bar\t10\t+ fire", "rows\t0\n"),
    (
        b"visit\thttps://example.com/wildfire\t1\t1",
        "visit\t4\tpage\t2\tfrecency\t200\n",
    ),
    (
        b"bar\t10\tFIRE",
        "rows\t3\n\
         page\t1\t2000\thttps://www.mozilla.org/en-US/firefox/new/\tDownload Firefox\n\
         page\t3\t100\thttps://fire.example/\t\n\
         page\t2\t200\thttps://example.com/wildfire\t\n",
    ),
    (b"bar\t0\tfire", "refused\t14\t5\n"),
    (b"bar\t1001\tfire", "refused\t14\t5\n"),
    // A bookmark's title is searched, and the page's own is told.
    (
        b"bookmark\t2\tend\thttps://fire.example/\tHearth\t0",
        "item\t7\n",
    ),
    (
        b"bar\t1\thearth",
        "rows\t1\npage\t3\t175\thttps://fire.example/\t\n",
    ),
];

// A frecency of -1 is one: the ten latest visits are reloads.
const MINUS_ONE: &[(&[u8], &str)] = &[
    (
        b"visit\thttps://a.example/\t1\t0",
        "visit\t1\tpage\t1\tfrecency\t100\n",
    ),
    (
        b"visit\thttps://a.example/\t9\t1",
        "visit\t2\tpage\t1\tfrecency\t50\n",
    ),
    (
        b"visit\thttps://a.example/\t9\t2",
        "visit\t3\tpage\t1\tfrecency\t34\n",
    ),
    (
        b"visit\thttps://a.example/\t9\t3",
        "visit\t4\tpage\t1\tfrecency\t25\n",
    ),
    (
        b"visit\thttps://a.example/\t9\t4",
        "visit\t5\tpage\t1\tfrecency\t20\n",
    ),
    (
        b"visit\thttps://a.example/\t9\t5",
        "visit\t6\tpage\t1\tfrecency\t17\n",
    ),
    (
        b"visit\thttps://a.example/\t9\t6",
        "visit\t7\tpage\t1\tfrecency\t15\n",
    ),
    (
        b"visit\thttps://a.example/\t9\t7",
        "visit\t8\tpage\t1\tfrecency\t13\n",
    ),
    (
        b"visit\thttps://a.example/\t9\t8",
        "visit\t9\tpage\t1\tfrecency\t12\n",
    ),
    (
        b"visit\thttps://a.example/\t9\t9",
        "visit\t10\tpage\t1\tfrecency\t10\n",
    ),
    (
        b"visit\thttps://a.example/\t9\t10",
        "visit\t11\tpage\t1\tfrecency\t-1\n",
    ),
    (
        b"bar\t10\ta",
        "rows\t1\npage\t1\t-1\thttps://a.example/\t\n",
    ),
];

#[test]
fn pages_are_offered(rt: HostRuntime) -> Result<(), Fail> {
    let alloc = rt.alloc();
    listed(&rt, alloc, store_of(alloc, FIRES)?, OFFERS)?;
    Ok(())
}

#[test]
fn offers_are_told(rt: HostRuntime) -> Result<(), Fail> {
    let alloc = rt.alloc();
    for table in [ROWS, MINUS_ONE] {
        talked(&rt, alloc, Memory::opening(alloc, SLOT_LIMIT)?, table)?;
    }
    Ok(())
}
