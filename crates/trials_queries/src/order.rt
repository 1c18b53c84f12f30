// Which rows answer a query, and in which order, by hand.
use crate::listed::{ALL_KINDS, listed, store_of};
use std::test::Fail;

// Every condition, by the ids of the pages, visits or bookmarks.
const CONDITIONS: &[(&[u8], &[u32])] = &[
    // Hidden pages and queries.
    (b"query\tplace:includeHidden=1", &[1, 2, 3, 4, 5]),
    (
        b"query\tplace:includeHidden=1&excludeQueries=1",
        &[1, 2, 3, 5],
    ),
    // Times: both ends belong to them, and references are moments of the store's day.
    (b"query\tplace:beginTime=20", &[1, 2]),
    (b"query\tplace:endTime=5", &[3]),
    (b"query\tplace:endTime=4", &[]),
    (b"query\tplace:beginTime=11&endTime=19", &[]),
    (b"query\tplace:beginTime=10&endTime=10", &[1]),
    (b"query\tplace:beginTime=6&endTime=19&type=1", &[1]),
    (b"query\tplace:endTime=-1&endTimeRef=1", &[]),
    (
        b"query\tplace:beginTime=-86399999979&beginTimeRef=2",
        &[1, 2],
    ),
    (b"query\tplace:beginTime=-86399999978&beginTimeRef=2", &[]),
    (b"query\tplace:beginTime=-9223372036854775808", &[1, 2, 3]),
    (
        b"query\tplace:endTime=9223372036854775807&endTimeRef=2",
        &[1, 2, 3],
    ),
    (
        b"query\tplace:beginTime=9223372036854775807&beginTimeRef=2",
        &[],
    ),
    // A transition is asked of the page, whichever visits are listed.
    (b"query\tplace:transition=2", &[1]),
    (b"query\tplace:transition=2&type=1", &[1, 2]),
    (b"query\tplace:transition=1&transition=2", &[1]),
    (b"query\tplace:transition=7", &[3]),
    (b"query\tplace:transition=2&transition=7", &[]),
    (b"query\tplace:transition=2&beginTime=15&type=1", &[2]),
    // Terms over the title, the address behind its prefix with its escapes decoded, and the tags.
    (b"query\tplace:terms=ALPHA", &[1]),
    (b"query\tplace:terms=ALPHA&includeHidden=1", &[1, 5]),
    (b"query\tplace:terms=two alpha&includeHidden=1", &[5]),
    (b"query\tplace:terms=alp lpha", &[1]),
    (b"query\tplace:terms=red", &[1, 2]),
    (b"query\tplace:terms=ed b", &[1, 2]),
    (b"query\tplace:terms=%20 ", &[1, 2, 3]),
    (b"query\tplace:terms=caf%C3%89&includeHidden=1", &[5]),
    (b"query\tplace:terms=c3&includeHidden=1", &[]),
    (b"query\tplace:terms=https", &[]),
    (b"query\tplace:terms=8080/path", &[2]),
    (b"query\tplace:terms=zeta", &[]),
    (b"query\tplace:terms=blue,red", &[1]),
    // Numbers of visits, bookmarks, URLs.
    (b"query\tplace:minVisits=1", &[1, 2]),
    (b"query\tplace:maxVisits=0", &[3]),
    (b"query\tplace:minVisits=2&maxVisits=2", &[1]),
    (b"query\tplace:minVisits=0", &[1, 2, 3]),
    (b"query\tplace:onlyBookmarked=1", &[1]),
    (b"query\tplace:uri=HTTPS://A.EXAMPLE", &[1]),
    (b"query\tplace:uri=https://c.example/", &[]),
    // Domains, without ports, and hosts that are the domain.
    (b"query\tplace:domain=a.example", &[1]),
    (b"query\tplace:domain=A.example&includeHidden=1", &[1, 5]),
    (
        b"query\tplace:domain=A.example&includeHidden=1&domainIsHost=1",
        &[1],
    ),
    (b"query\tplace:domain=example", &[1, 2]),
    (b"query\tplace:domain=b.example", &[2]),
    (b"query\tplace:domain=b.example&domainIsHost=1", &[]),
    (b"query\tplace:domain=www.b.example&domainIsHost=1", &[2]),
    (b"query\tplace:domain=xample", &[]),
    (b"query\tplace:domain=b.example:8080", &[]),
    (b"query\tplace:domain=%5B2001:db8::1%5D", &[3]),
    (b"query\tplace:domain=&includeHidden=1", &[4]),
    // Folders: a bookmark of the page is in one of them; tags are none.
    (b"query\tplace:parent=7", &[1]),
    (b"query\tplace:parent=menu________", &[1]),
    (b"query\tplace:parent=unfiled_____", &[]),
    (b"query\tplace:parent=5&parent=2", &[1]),
    (b"query\tplace:parent=11", &[]),
    (b"query\tplace:parent=99", &[]),
    // All tags, and none of them.
    (b"query\tplace:tag=RED", &[1, 2]),
    (b"query\tplace:tag=red&tag=blue", &[1]),
    (b"query\tplace:tag=red&!tags=1", &[3]),
    (b"query\tplace:tag=blue&tag=green&!tags=1", &[2, 3]),
    (b"query\tplace:tag=green", &[]),
    (b"query\tplace:!tags=1", &[1, 2, 3]),
    // Several conditions at once.
    (b"query\tplace:tag=red&minVisits=2", &[1]),
    (
        b"query\tplace:domain=example&transition=1&beginTime=20&sort=22",
        &[1, 2],
    ),
    // Bookmarks: their own dates and folders, and what is asked of their pages.
    (
        b"query\tplace:queryType=1&beginTime=60&endTime=100",
        &[8, 10],
    ),
    (b"query\tplace:queryType=1&parent=7", &[9]),
    (b"query\tplace:queryType=1&parent=2", &[8]),
    (b"query\tplace:queryType=1&parent=2&parent=5", &[8, 10]),
    (b"query\tplace:queryType=1&transition=7", &[8, 9, 10]),
    (b"query\tplace:queryType=1&terms=alpha", &[8, 9]),
    (b"query\tplace:queryType=1&terms=zeta", &[]),
    (b"query\tplace:queryType=1&tag=red", &[8, 9]),
    (b"query\tplace:queryType=1&maxVisits=0", &[10]),
    (b"query\tplace:queryType=1&domain=c.example", &[10]),
    (b"query\tplace:queryType=1&onlyBookmarked=1", &[8, 9, 10]),
];

// Every order; pages that are hidden are listed too.
const ORDERS: &[(&[u8], &[u32])] = &[
    (b"query\tplace:includeHidden=1&sort=0", &[1, 2, 3, 4, 5]),
    (b"query\tplace:includeHidden=1&sort=1", &[3, 4, 1, 5, 2]),
    (b"query\tplace:includeHidden=1&sort=2", &[2, 5, 1, 3, 4]),
    (b"query\tplace:includeHidden=1&sort=3", &[3, 1, 2, 4, 5]),
    (b"query\tplace:includeHidden=1&sort=4", &[5, 4, 1, 2, 3]),
    (b"query\tplace:includeHidden=1&sort=5", &[3, 1, 2, 5, 4]),
    (b"query\tplace:includeHidden=1&sort=6", &[4, 5, 2, 1, 3]),
    (b"query\tplace:includeHidden=1&sort=7", &[3, 5, 2, 4, 1]),
    (b"query\tplace:includeHidden=1&sort=8", &[1, 2, 4, 3, 5]),
    (b"query\tplace:includeHidden=1&sort=11", &[2, 3, 4, 5, 1]),
    (b"query\tplace:includeHidden=1&sort=12", &[1, 2, 3, 4, 5]),
    (b"query\tplace:includeHidden=1&sort=13", &[2, 3, 4, 5, 1]),
    (b"query\tplace:includeHidden=1&sort=14", &[1, 2, 3, 4, 5]),
    (b"query\tplace:includeHidden=1&sort=17", &[3, 4, 5, 1, 2]),
    (b"query\tplace:includeHidden=1&sort=18", &[2, 1, 3, 4, 5]),
    (b"query\tplace:includeHidden=1&sort=21", &[3, 5, 4, 2, 1]),
    (b"query\tplace:includeHidden=1&sort=22", &[1, 2, 4, 3, 5]),
    // Visits: by the dates of their own, and by their ids where they are alike.
    (b"query\tplace:type=1&sort=0", &[1, 2, 3, 4]),
    (b"query\tplace:type=1&sort=1", &[4, 1, 2, 3]),
    (b"query\tplace:type=1&sort=2", &[3, 1, 2, 4]),
    (b"query\tplace:type=1&sort=3", &[4, 1, 2, 3]),
    (b"query\tplace:type=1&sort=4", &[2, 3, 1, 4]),
    (b"query\tplace:type=1&sort=12", &[1, 2, 3, 4]),
    (b"query\tplace:type=1&sort=21", &[4, 3, 1, 2]),
    // Bookmarks: by their own titles and dates; a date that is none stands first, and last where
    // they descend.
    (b"query\tplace:queryType=1&sort=1", &[9, 10, 8]),
    (b"query\tplace:queryType=1&sort=2", &[8, 10, 9]),
    (b"query\tplace:queryType=1&sort=3", &[10, 8, 9]),
    (b"query\tplace:queryType=1&sort=4", &[8, 9, 10]),
    (b"query\tplace:queryType=1&sort=5", &[8, 9, 10]),
    (b"query\tplace:queryType=1&sort=6", &[10, 8, 9]),
    (b"query\tplace:queryType=1&sort=7", &[10, 8, 9]),
    (b"query\tplace:queryType=1&sort=8", &[8, 9, 10]),
    (b"query\tplace:queryType=1&sort=11", &[9, 10, 8]),
    (b"query\tplace:queryType=1&sort=12", &[8, 10, 9]),
    (b"query\tplace:queryType=1&sort=13", &[10, 8, 9]),
    (b"query\tplace:queryType=1&sort=14", &[9, 8, 10]),
    (b"query\tplace:queryType=1&sort=17", &[10, 8, 9]),
    (b"query\tplace:queryType=1&sort=18", &[8, 9, 10]),
    (b"query\tplace:queryType=1&sort=21", &[10, 8, 9]),
    (b"query\tplace:queryType=1&sort=22", &[8, 9, 10]),
    // The first of them; 0 keeps all.
    (b"query\tplace:queryType=1&sort=12&maxResults=2", &[8, 10]),
    (b"query\tplace:sort=22&maxResults=1", &[1]),
    (b"query\tplace:maxResults=0", &[1, 2, 3]),
    (b"query\tplace:maxResults=4294967295", &[1, 2, 3]),
];

#[test]
fn conditions_name_the_rows(rt: HostRuntime) -> Result<(), Fail> {
    let alloc = rt.alloc();
    listed(&rt, alloc, store_of(alloc, ALL_KINDS)?, CONDITIONS)?;
    Ok(())
}

#[test]
fn rows_stand_in_order(rt: HostRuntime) -> Result<(), Fail> {
    let alloc = rt.alloc();
    listed(&rt, alloc, store_of(alloc, ALL_KINDS)?, ORDERS)?;
    Ok(())
}
