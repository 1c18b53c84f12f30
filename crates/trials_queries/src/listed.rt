// The ids of the rows of a reply, in order.
use pl_query::ResultRow;
use pl_step::{BarRow, Reply};
use pl_store::SLOT_LIMIT;
use std::alloc::Global;
use std::process::Abort;
use std::test::Fail;
use trials_memory::{Memory, replied};

// A store with pages of all kinds: 1 has two visits, two bookmarks and two tags; 2 a port and a
// tag; 3 an IPv6 host and a download alone; 4 is a query and 5 is embedded, so both are hidden; 6
// is a bookmark that was never visited. Items 8 and 9 are bookmarks of page 1, and 10 is one of
// page 6.
pub const ALL_KINDS: &[&[u8]] = &[
    b"visit\thttps://a.example/\t2\t10",
    b"visit\thttps://a.example/\t1\t20",
    b"visit\thttps://www.b.example:8080/path\t1\t20",
    b"visit\thttps://[2001:db8::1]/\t7\t5",
    b"visit\tplace:sort=1\t1\t30",
    b"visit\thttps://x.a.example/caf%C3%A9\t4\t40",
    b"title\thttps://a.example/\tAlpha",
    b"title\thttps://www.b.example:8080/path\tbeta",
    b"title\thttps://x.a.example/caf%C3%A9\tALPHA two",
    b"folder\t2\tend\tF\t0",
    b"bookmark\t2\tend\thttps://a.example/\tzeta\t100",
    b"bookmark\t7\tend\thttps://a.example/\tEta\t50",
    b"bookmark\t5\tend\thttps://c.example/\tgamma\t70",
    b"retitle\t9\teta\t200",
    b"tag\thttps://a.example/\tRed\t0",
    b"tag\thttps://www.b.example:8080/path\tRED\t0",
    b"tag\thttps://a.example/\tBlue\t0",
];

fn found_ids(alloc: Global, rows: &[ResultRow]) -> Result<Vec<u32>, Fail> {
    let mut ids = Vec::new(alloc);
    for row in rows {
        ids.push(row.id)?;
    }
    Ok(ids)
}

fn offered_ids(alloc: Global, rows: &[BarRow]) -> Result<Vec<u32>, Fail> {
    let mut ids = Vec::new(alloc);
    for row in rows {
        ids.push(row.id.0)?;
    }
    Ok(ids)
}

// The ids of what a query or the address bar lists. A refusal, or another reply, lists nothing: it
// fails the test also where no rows are expected.
fn ids_in(alloc: Global, reply: &Reply) -> Result<Vec<u32>, Fail> {
    match reply {
        Reply::Rows(rows) => found_ids(alloc, rows.as_slice()),
        Reply::Bar(rows) => offered_ids(alloc, rows.as_slice()),
        _ => Err("a reply without rows".into()),
    }
}

fn expect_ids(rt: &impl Abort, alloc: Global, reply: Reply, wanted: &[u32]) -> Result<(), Fail> {
    let listed = ids_in(alloc, &reply);
    drop(reply);
    assert_eq!(rt; listed?.as_slice(), wanted);
    Ok(())
}

// The same of what may be no reply, as a comment has none.
fn expect_reply(
    rt: &impl Abort,
    alloc: Global,
    reply: Option<Reply>,
    wanted: &[u32],
) -> Result<(), Fail> {
    match reply {
        Some(reply) => expect_ids(rt, alloc, reply, wanted),
        None => Err("no reply".into()),
    }
}

// A store after these lines.
pub fn store_of(alloc: Global, lines: &[&[u8]]) -> Result<Memory, Fail> {
    let mut memory = Memory::opening(alloc, SLOT_LIMIT)?;
    for line in lines {
        let (after, reply) = replied(alloc, memory, line)?;
        drop(reply);
        memory = after;
    }
    Ok(memory)
}

// The store after lines that list rows with these ids.
pub fn listed(
    rt: &impl Abort,
    alloc: Global,
    memory: Memory,
    lines: &[(&[u8], &[u32])],
) -> Result<Memory, Fail> {
    let mut memory = memory;
    for (line, wanted) in lines {
        let (after, reply) = replied(alloc, memory, line)?;
        memory = after;
        expect_reply(rt, alloc, reply, wanted)?;
    }
    Ok(memory)
}
