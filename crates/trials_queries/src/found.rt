// Rows that answer queries, as they are told, by hand.
use crate::listed::{ALL_KINDS, store_of};
use crate::told::talked;
use pl_store::SLOT_LIMIT;
use std::test::Fail;
use trials_memory::Memory;

// A tag, asked for in another case.
const TAGGED: &[(&[u8], &str)] = &[
    (b"tag\thttps://a.example/\tRed\t0", "ok\n"),
    (b"tag\thttps://a.example/\tRED\t0", "refused\t15\n"),
    (
        b"visit\thttps://a.example/\t1\t0",
        "visit\t1\tpage\t1\tfrecency\t175\n",
    ),
    (
        b"query\tplace:tag=red",
        "rows\t1\nrow\t1\thttps://a.example/\t\t0\t1\t175\tRed\n",
    ),
    (b"untag\thttps://a.example/\tred", "ok\n"),
    (b"untag\thttps://a.example/\tred", "refused\t18\n"),
    (b"query\tplace:tag=red", "rows\t0\n"),
];

// Two visits; a page shows its latest date, also where an earlier visit is within the times.
const VISITED: &[(&[u8], &str)] = &[
    (
        b"visit\thttps://a.example/\t1\t0",
        "visit\t1\tpage\t1\tfrecency\t100\n",
    ),
    (
        b"visit\thttps://a.example/\t1\t5",
        "visit\t2\tpage\t1\tfrecency\t200\n",
    ),
    (
        b"query\tplace:type=1&sort=4",
        "rows\t2\n\
         row\t2\thttps://a.example/\t\t5\t2\t200\t\n\
         row\t1\thttps://a.example/\t\t0\t2\t200\t\n",
    ),
    (b"query\tplace:beginTime=-1&beginTimeRef=2", "rows\t0\n"),
    (
        b"query\tplace:endTime=0&endTimeRef=1",
        "rows\t1\n\
         row\t1\thttps://a.example/\t\t5\t2\t200\t\n",
    ),
    (b"query\tplace:maxResults=x", "refused\t11\t1\n"),
    (b"query\tplace:sort=9", "refused\t11\t1\n"),
    (
        b"place\tplace:maxResults=3&sort=22&foo=1&terms=a b",
        "place\tplace:terms=a%20b&sort=22&maxResults=3\n",
    ),
];

// The first three of four that are alike.
const RANKED: &[(&[u8], &str)] = &[
    (
        b"visit\thttps://mozilla.org/\t1\t0",
        "visit\t1\tpage\t1\tfrecency\t100\n",
    ),
    (
        b"visit\thttps://example.org/\t1\t0",
        "visit\t2\tpage\t2\tfrecency\t100\n",
    ),
    (
        b"visit\thttps://c.example/\t1\t0",
        "visit\t3\tpage\t3\tfrecency\t100\n",
    ),
    (
        b"visit\thttps://d.example/\t1\t0",
        "visit\t4\tpage\t4\tfrecency\t100\n",
    ),
    (
        b"query\tplace:type=0&sort=22&maxResults=3",
        "rows\t3\n\
         row\t1\thttps://mozilla.org/\t\t0\t1\t100\t\n\
         row\t2\thttps://example.org/\t\t0\t1\t100\t\n\
         row\t3\thttps://c.example/\t\t0\t1\t100\t\n",
    ),
];

// What each kind of row shows, on the store of all conditions.
const SHOWN: &[(&[u8], &str)] = &[
    (
        b"query\tplace:",
        "rows\t3\n\
         row\t1\thttps://a.example/\tAlpha\t20\t2\t2250\tBlue,Red\n\
         row\t2\thttps://www.b.example:8080/path\tbeta\t20\t1\t175\tRed\n\
         row\t3\thttps://[2001:db8::1]/\t\t5\t0\t0\t\n",
    ),
    (
        b"query\tplace:includeHidden=1&sort=4&maxResults=2",
        "rows\t2\n\
         row\t5\thttps://x.a.example/caf%C3%A9\tALPHA two\t40\t0\t0\t\n\
         row\t4\tplace:sort=1\t\t30\t1\t100\t\n",
    ),
    (
        b"query\tplace:type=1",
        "rows\t4\n\
         row\t1\thttps://a.example/\tAlpha\t10\t2\t2250\tBlue,Red\n\
         row\t2\thttps://a.example/\tAlpha\t20\t2\t2250\tBlue,Red\n\
         row\t3\thttps://www.b.example:8080/path\tbeta\t20\t1\t175\tRed\n\
         row\t4\thttps://[2001:db8::1]/\t\t5\t0\t0\t\n",
    ),
    // A bookmark shows its own title, and the page's latest date or none.
    (
        b"query\tplace:queryType=1",
        "rows\t3\n\
         row\t8\thttps://a.example/\tzeta\t20\t2\t2250\tBlue,Red\n\
         row\t9\thttps://a.example/\teta\t20\t2\t2250\tBlue,Red\n\
         row\t10\thttps://c.example/\tgamma\t-\t0\t140\t\n",
    ),
    (
        b"query\tplace:queryType=1&type=1&parent=7",
        "rows\t1\n\
         row\t9\thttps://a.example/\teta\t20\t2\t2250\tBlue,Red\n",
    ),
];

#[test]
fn rows_are_told(rt: HostRuntime) -> Result<(), Fail> {
    let alloc = rt.alloc();
    for table in [TAGGED, VISITED, RANKED] {
        talked(&rt, alloc, Memory::opening(alloc, SLOT_LIMIT)?, table)?;
    }
    talked(&rt, alloc, store_of(alloc, ALL_KINDS)?, SHOWN)?;
    Ok(())
}
