// Queries with each condition and in each order, on a store by hand.
ghost use Rattle.std.specs.Prelude.{◌≡◌, ◌<◌};

use crate::beside::expect_defined;
use pl_base::{Rows, SLOT_LIMIT, Steps};
use pl_engine::Engine;
use pl_linked::Linked;
use std::alloc::Global;
use std::marker::Brand;
use std::process::Abort;
use std::sync::ledger::{Blank, Ledger};
use std::test::Fail;
use trials_known::{Last, after_line};

// Pages with visits on the same dates: 3, 4 and 5 have the same frecency too. 6 was embedded, 7 is
// a query, 8 led to 9, so these are hidden; 10 and 11 are bookmarks without visits. `zeta` stands
// in the title of a bookmark alone, `Red` and `RED` are one tag.
const LINES: &[&str] = &[
    "visit\thttps://a.example/\t2\t10",
    "visit\thttps://a.example/\t1\t20",
    "visit\thttps://www.b.example:8080/path\t1\t20",
    "visit\thttps://c.example/1\t1\t20",
    "visit\thttps://c.example/2\t1\t20",
    "visit\thttps://c.example/3\t1\t20",
    "visit\thttps://x.a.example/caf%C3%A9\t4\t40",
    "visit\tplace:sort=1\t1\t30",
    "visit\thttps://d.example/\t1\t30",
    "visit\thttps://d.example/to\t5\t30\t8",
    "title\thttps://a.example/\tAlpha",
    "title\thttps://www.b.example:8080/path\tbeta",
    "title\thttps://c.example/2\tAlpha beta",
    "title\thttps://x.a.example/caf%C3%A9\tALPHA two",
    "folder\t2\tend\tF\t0",
    "bookmark\t2\tend\thttps://a.example/\tzeta\t100",
    "bookmark\t7\tend\thttps://a.example/\tEta\t50",
    "bookmark\t7\tend\thttps://c.example/3\talpha\t60",
    "bookmark\t5\tend\thttps://m.example/\tgamma\t70",
    "bookmark\t3\tend\thttps://n.example/\t\t80",
    "retitle\t9\teta\t200",
    "tag\thttps://a.example/\tRed\t0",
    "tag\thttps://www.b.example:8080/path\tRED\t0",
    "tag\thttps://a.example/\tBlue\t0",
    "tag\thttps://c.example/1\tblue\t0",
];

const TEXTS: &[&str] = &[
    // Each order, and cuts that fall among pages that are alike in it.
    "place:includeHidden=1",
    "place:includeHidden=1&sort=1",
    "place:includeHidden=1&sort=2&maxResults=5",
    "place:includeHidden=1&sort=3",
    "place:includeHidden=1&sort=4&maxResults=4",
    "place:includeHidden=1&sort=5",
    "place:includeHidden=1&sort=6&maxResults=1",
    "place:includeHidden=1&sort=7&maxResults=5",
    "place:includeHidden=1&sort=8",
    "place:sort=11",
    "place:sort=12&maxResults=1",
    "place:sort=13",
    "place:sort=14",
    "place:includeHidden=1&sort=17&maxResults=10",
    "place:sort=18&maxResults=2",
    "place:includeHidden=1&sort=21&maxResults=5",
    "place:sort=22",
    "place:sort=22&maxResults=0",
    "place:sort=22&maxResults=1",
    "place:sort=22&maxResults=3",
    "place:sort=22&maxResults=5",
    "place:sort=22&maxResults=100",
    "place:includeHidden=1&sort=22&maxResults=6",
    // Words, in a bookmark's title alone too.
    "place:terms=ALPHA",
    "place:terms=beta alpha&sort=22&maxResults=1",
    "place:terms=caf%C3%89&includeHidden=1",
    "place:terms=blue,red",
    "place:terms=zeta",
    "place:terms=absent&sort=22&maxResults=1",
    // Addresses.
    "place:domain=A.example&includeHidden=1&sort=22",
    "place:domain=A.example&includeHidden=1&domainIsHost=1",
    "place:domain=b.example",
    "place:domain=&includeHidden=1",
    "place:uri=HTTPS://A.EXAMPLE&sort=22&maxResults=1",
    "place:uri=https://x.a.example/caf%C3%A9",
    "place:uri=https://absent.example/",
    "place:includeHidden=1&excludeQueries=1&sort=4",
    // Tags and folders.
    "place:tag=RED",
    "place:tag=red&tag=BLUE&sort=22&maxResults=5",
    "place:tag=red&!tags=1&sort=3",
    "place:tag=absent",
    "place:tag=blue&sort=4&maxResults=1",
    "place:tag=RED&tag=blue&sort=1",
    "place:tag=blue&includeHidden=1&minVisits=2",
    "place:tag=red&terms=beta",
    "place:tag=red&uri=https://a.example/",
    "place:tag=red&beginTime=15&endTime=20",
    "place:tag=red&type=1&sort=4&maxResults=2",
    "place:parent=7&sort=1",
    "place:parent=unfiled_____&parent=2",
    "place:onlyBookmarked=1&sort=22&maxResults=5",
    "place:onlyBookmarked=1&tag=blue&terms=alpha",
    // Numbers of visits, dates and transitions.
    "place:minVisits=1&maxVisits=1&sort=22&maxResults=2",
    "place:minVisits=2",
    "place:maxVisits=0&includeHidden=1",
    "place:beginTime=20&endTime=20&sort=22&maxResults=2",
    "place:beginTime=10&endTime=19",
    "place:endTime=20&endTimeRef=1",
    "place:beginTime=20&sort=4&maxResults=3",
    "place:beginTime=21&endTime=29&includeHidden=1",
    "place:beginTime=20&endTime=30&includeHidden=1&sort=1",
    "place:endTime=9",
    "place:endTime=20&sort=22&maxResults=3",
    "place:endTime=19&sort=5",
    "place:beginTime=30&endTime=20",
    "place:beginTime=10&sort=17",
    "place:beginTime=10&transition=2",
    "place:beginTime=10&parent=7",
    "place:beginTime=-86399999979&beginTimeRef=2&sort=4&maxResults=3",
    "place:transition=2&sort=22",
    // Visits and bookmarks.
    "place:type=1",
    "place:type=1&sort=4&maxResults=3",
    "place:type=1&sort=4&maxResults=3&includeHidden=1",
    "place:type=1&sort=4&maxResults=4&beginTime=20&endTime=20",
    "place:type=1&sort=4&maxResults=1&endTime=20",
    "place:type=1&sort=4&maxResults=9&transition=2",
    "place:type=1&includeHidden=1&beginTime=20&endTime=30&sort=22&maxResults=5",
    "place:queryType=1&sort=12&maxResults=2",
    "place:queryType=1&tag=red&sort=1",
    "place:queryType=1&parent=7&terms=alpha",
];

// The engine behind all lines.
fn filled<R: Rows + Drop, L: Ledger>(
    alloc: Global,
    engine: Engine<R>,
    steps: &mut Steps<L>,
) -> Result<Engine<R>, Fail> {
    let mut engine = engine;
    let mut last = Last { visit: 0, item: 6 };
    for text in LINES {
        let after = after_line(alloc, engine, last, text, steps)?;
        if !after.is_performed {
            return Err("refused".into());
        }
        last = after.last;
        engine = after.engine;
    }
    Ok(engine)
}

fn expect_all<R: Rows + Drop, L: Ledger>(
    rt: &impl Abort,
    alloc: Global,
    engine: Engine<R>,
    steps: &mut Steps<L>,
) -> Result<(), Fail> {
    let mut engine = engine;
    let mut count = 0u32;
    for text in TEXTS {
        let behind = expect_defined(rt, alloc, engine, text, steps)?;
        count = count.wrapping_add(u32::from(behind.has_rows));
        engine = behind.engine;
    }
    assert!(rt; count > 50, "{count}");
    Ok(())
}

fn check<L: Ledger>(rt: &impl Abort, alloc: Global, blank: Blank) -> Result<(), Fail>
    requires name { blank.name ≡ L.name }
    requires parts { blank.parts ≡ L.parts }
    requires some { 0 < blank.parts }
{
    let mut steps = Steps::<L>::none(blank);
    let rows = Linked::opening(alloc)?;
    let engine = Engine::over(alloc, rows, SLOT_LIMIT, &mut steps)?;
    let engine = filled(alloc, engine, &mut steps)?;
    expect_all(rt, alloc, engine, &mut steps)
}

#[test]
fn listed_queries_have_their_rows(rt: HostRuntime) -> Result<(), Fail> {
    check::<Brand>(&rt, rt.alloc(), Blank::new(1))
}
