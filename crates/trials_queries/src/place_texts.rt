// The texts of queries, with their canonical texts or the pieces that are refused, by hand.
use crate::told::told;
use pl_store::SLOT_LIMIT;
use std::alloc::Global;
use std::process::Abort;
use std::test::Fail;
use trials_memory::Memory;

// A text, and its canonical text.
const TEXTS: &[(&str, &str)] = &[
    ("place:", "place:"),
    (
        "place:maxResults=3&sort=22&foo=1&terms=a b",
        "place:terms=a%20b&sort=22&maxResults=3",
    ),
    // Pieces that say nothing: empty ones, keys that are not known, and what is said of nothing.
    ("place:&&sort=1&", "place:sort=1"),
    ("place:foo=%zz&bar", "place:"),
    ("place:=5", "place:"),
    ("place:%74erms=a", "place:"),
    ("place:TERMS=a&Sort=9", "place:"),
    ("place:beginTimeRef=2", "place:"),
    ("place:domainIsHost=1", "place:"),
    ("place:!tags=1", "place:"),
    ("place:sort=0&type=0&queryType=0&maxResults=0", "place:"),
    ("place:onlyBookmarked=false&includeHidden=0", "place:"),
    // Terms: `=` in values, `%` that escapes nothing, `+`, bytes of two and three.
    ("place:terms", "place:"),
    ("place:terms=a&terms=", "place:"),
    ("place:terms=a=b=c", "place:terms=a%3Db%3Dc"),
    ("place:terms=100%", "place:terms=100%25"),
    ("place:terms=%zz", "place:terms=%25zz"),
    ("place:terms=%4", "place:terms=%254"),
    ("place:terms=a+b", "place:terms=a%2Bb"),
    ("place:terms=%41%c3%A9é", "place:terms=A%C3%A9%C3%A9"),
    ("place:terms=~a-b_c.d", "place:terms=~a-b_c.d"),
    ("place:terms= ", "place:terms=%20"),
    ("place:terms=a\\tb", "place:terms=a%09b"),
    ("place:terms=%26%3d%25", "place:terms=%26%3D%25"),
    // Domains: letters of ASCII alone are lowered; the empty one is one.
    (
        "place:domain=WWW.Example.ORG",
        "place:domain=www.example.org",
    ),
    ("place:domain=%C3%89X", "place:domain=%C3%89x"),
    ("place:domain", "place:domain="),
    (
        "place:domainIsHost=true&domain=a",
        "place:domainIsHost=1&domain=a",
    ),
    (
        "place:domainIsHost=1&domainIsHost=0&domain=a",
        "place:domain=a",
    ),
    // Times, and both edges of 64 bits.
    ("place:beginTime=-0", "place:beginTime=0"),
    (
        "place:beginTime=9223372036854775807",
        "place:beginTime=9223372036854775807",
    ),
    (
        "place:beginTime=-9223372036854775808",
        "place:beginTime=-9223372036854775808",
    ),
    (
        "place:endTimeRef=1&endTime=-7",
        "place:endTime=-7&endTimeRef=1",
    ),
    ("place:beginTime=1&beginTimeRef=0", "place:beginTime=1"),
    (
        "place:endTime=5&endTimeRef=2&endTimeRef=1",
        "place:endTime=5&endTimeRef=1",
    ),
    // Numbers of visits, and both edges of 32 bits.
    (
        "place:minVisits=0&maxVisits=2147483647",
        "place:minVisits=0&maxVisits=2147483647",
    ),
    ("place:minVisits=-2147483648", "place:"),
    ("place:minVisits=3&minVisits=-1", "place:"),
    ("place:maxVisits=-0", "place:maxVisits=0"),
    // URLs, folders, tags that fold alike, and transitions.
    (
        "place:uri=HTTPS://A.example",
        "place:uri=https%3A%2F%2Fa.example%2F",
    ),
    (
        "place:uri=https%3A%2F%2Fa.example%2F%3Fq%3D1%262",
        "place:uri=https%3A%2F%2Fa.example%2F%3Fq%3D1%262",
    ),
    (
        "place:parent=menu________&parent=5&parent=2&parent=unfiled_____&parent=4294967295",
        "place:parent=2&parent=5&parent=4294967295",
    ),
    (
        "place:parent=mobile______&parent=tags________&parent=toolbar_____&parent=root________",
        "place:parent=6&parent=4&parent=3&parent=1",
    ),
    ("place:parent=0", "place:parent=0"),
    (
        "place:tag=Red&tag=%20red%20&tag=blue&tag=RED",
        "place:tag=Red&tag=blue",
    ),
    ("place:tag=Stra%C3%9Fe&tag=STRASSE", "place:tag=Stra%C3%9Fe"),
    ("place:!tags=1&tag=a", "place:tag=a&!tags=1"),
    (
        "place:transition=7&transition=1&transition=7&transition=9",
        "place:transition=1&transition=7&transition=9",
    ),
    // What has a number; of a key that does not gather the last piece counts.
    (
        "place:sort=8&type=1&queryType=1",
        "place:sort=8&type=1&queryType=1",
    ),
    ("place:sort=14&sort=17", "place:sort=17"),
    ("place:maxResults=4294967295", "place:maxResults=4294967295"),
    (
        "place:onlyBookmarked=true&includeHidden=1&excludeQueries=true",
        "place:onlyBookmarked=1&includeHidden=1&excludeQueries=1",
    ),
    // Every key, in the other order.
    (
        "place:excludeQueries=1&maxResults=2&includeHidden=1&queryType=1&type=1&sort=21&\
         transition=2&!tags=1&tag=t&parent=2&uri=https://a.example/&domain=d&domainIsHost=1&\
         onlyBookmarked=1&maxVisits=4&minVisits=3&terms=w&endTimeRef=1&endTime=2&\
         beginTimeRef=2&beginTime=1",
        "place:beginTime=1&beginTimeRef=2&endTime=2&endTimeRef=1&terms=w&minVisits=3&\
         maxVisits=4&onlyBookmarked=1&domainIsHost=1&domain=d&uri=https%3A%2F%2Fa.example%2F&\
         parent=2&tag=t&!tags=1&transition=2&sort=21&type=1&queryType=1&includeHidden=1&\
         maxResults=2&excludeQueries=1",
    ),
];

// A text, and the number of the piece that is refused.
const REFUSED: &[(&str, &str)] = &[
    ("", "refused\t11\t0\n"),
    ("Place:", "refused\t11\t0\n"),
    (" place:", "refused\t11\t0\n"),
    ("place", "refused\t11\t0\n"),
    // The first piece that is not of its form, with the empty ones and those of other keys.
    ("place:sort=9", "refused\t11\t1\n"),
    ("place:&sort=23", "refused\t11\t2\n"),
    ("place:foo=1&&sort=", "refused\t11\t3\n"),
    ("place:terms=a&sort=01&type=9", "refused\t11\t2\n"),
    ("place:sort=1&sort=9&sort=2", "refused\t11\t2\n"),
    // Numbers past their edges, and what is none.
    ("place:beginTime=9223372036854775808", "refused\t11\t1\n"),
    ("place:beginTime=-9223372036854775809", "refused\t11\t1\n"),
    ("place:endTime=+1", "refused\t11\t1\n"),
    ("place:endTime=-", "refused\t11\t1\n"),
    ("place:endTime=--1", "refused\t11\t1\n"),
    ("place:endTime=", "refused\t11\t1\n"),
    ("place:beginTimeRef=3", "refused\t11\t1\n"),
    ("place:endTimeRef=-0", "refused\t11\t1\n"),
    ("place:minVisits=2147483648", "refused\t11\t1\n"),
    ("place:maxVisits=-2147483649", "refused\t11\t1\n"),
    ("place:maxResults=x", "refused\t11\t1\n"),
    ("place:maxResults=4294967296", "refused\t11\t1\n"),
    ("place:maxResults=-1", "refused\t11\t1\n"),
    ("place:parent=4294967296", "refused\t11\t1\n"),
    ("place:transition=0", "refused\t11\t1\n"),
    ("place:transition=10", "refused\t11\t1\n"),
    ("place:type=3", "refused\t11\t1\n"),
    ("place:queryType=2", "refused\t11\t1\n"),
    ("place:sort=10", "refused\t11\t1\n"),
    // Other values that are none, and bytes that are no UTF-8 behind escapes.
    ("place:onlyBookmarked=yes", "refused\t11\t1\n"),
    ("place:onlyBookmarked", "refused\t11\t1\n"),
    ("place:includeHidden=TRUE", "refused\t11\t1\n"),
    ("place:terms=%FF", "refused\t11\t1\n"),
    ("place:domain=%c3", "refused\t11\t1\n"),
    ("place:uri=a.example", "refused\t11\t1\n"),
    (
        "place:uri=https://a.example/%26&uri=%FF",
        "refused\t11\t2\n",
    ),
    ("place:parent=nowhere", "refused\t11\t1\n"),
    ("place:parent=Menu________", "refused\t11\t1\n"),
    ("place:tag=%20", "refused\t11\t1\n"),
    ("place:tag=a,b", "refused\t11\t1\n"),
    ("place:tag=%E9", "refused\t11\t1\n"),
];

// A line with this text.
fn place_line(alloc: Global, text: &str) -> Result<Vec<u8>, Fail> {
    let mut line = Vec::from_slice(alloc, b"place\t")?;
    line.extend_from_slice(text.as_bytes())?;
    Ok(line)
}

// The store after a text was asked for its canonical text, which is this one.
fn written(
    rt: &impl Abort,
    alloc: Global,
    memory: Memory,
    text: &str,
    canonical: &str,
) -> Result<Memory, Fail> {
    let line = place_line(alloc, text)?;
    let reply = format!(in alloc; "place\t{canonical}\n")?;
    told(rt, alloc, memory, &line, &reply)
}

// Each text is written, and what is written reads as the same.
#[test]
fn texts_are_written_and_read_again(rt: HostRuntime) -> Result<(), Fail> {
    let alloc = rt.alloc();
    let mut memory = Memory::opening(alloc, SLOT_LIMIT)?;
    for (text, canonical) in TEXTS {
        memory = written(&rt, alloc, memory, text, canonical)?;
        memory = written(&rt, alloc, memory, canonical, canonical)?;
    }
    Ok(())
}

#[test]
fn texts_are_refused_at_the_piece(rt: HostRuntime) -> Result<(), Fail> {
    let alloc = rt.alloc();
    let mut memory = Memory::opening(alloc, SLOT_LIMIT)?;
    for (text, refused) in REFUSED {
        let line = place_line(alloc, text)?;
        memory = told(&rt, alloc, memory, &line, refused)?;
    }
    Ok(())
}
