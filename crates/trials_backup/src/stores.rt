// Stores, and the values that a backup has of them. All was worked out by hand.
use crate::desks::{Roots, expect_roots, made};
use std::test::Fail;
use trials_desks::said_text;

// The body of a bookmark file and a script, by which a new store is made.
const STORES: &[(&str, &str, Roots)] = &[
    // Each kind of node in each root: a separator with a title, a folder without a child.
    (
        "",
        "bookmark\t6\t0\thttps://o.example/\tO\t4000001\nseparator\t5\tend\t3000002\n\
         retitle\t8\tline\t3000003\nfolder\t3\tend\tT\t2000004\n\
         bookmark\t2\tend\thttps://m.example/\tM\t1000005\n\
         tag\thttps://m.example/\tred\t0\ntag\thttps://m.example/\tBlue\t0\n",
        (
            "{\"dateAdded\":1000005,\"lastModified\":1000005,\"tags\":\"Blue,red\",\
             \"title\":\"M\",\"type\":\"text/x-moz-place\",\"typeCode\":1,\
             \"uri\":\"https://m.example/\"}",
            "{\"children\":[],\"dateAdded\":2000004,\"lastModified\":2000004,\"title\":\"T\",\
             \"type\":\"text/x-moz-place-container\",\"typeCode\":2}",
            "{\"dateAdded\":3000002,\"lastModified\":3000003,\"title\":\"line\",\
             \"type\":\"text/x-moz-place-separator\",\"typeCode\":3}",
            "{\"dateAdded\":4000001,\"lastModified\":4000001,\"title\":\"O\",\
             \"type\":\"text/x-moz-place\",\"typeCode\":1,\"uri\":\"https://o.example/\"}",
        ),
    ),
    // Lists that end one and three at a time.
    (
        "<H3 ADD_DATE='1' LAST_MODIFIED='2'>1<DL><H3>2<DL><HR></DL>\
         <A HREF='https://a.example/' ADD_DATE='5' LAST_MODIFIED='4'>3</DL><HR>",
        "folder\t6\tend\tx\t0\nfolder\t12\tend\ty\t0\nfolder\t13\tend\tz\t0\n",
        (
            "{\"children\":[{\"children\":[\
             {\"dateAdded\":0,\"lastModified\":0,\"title\":\"\",\
             \"type\":\"text/x-moz-place-separator\",\"typeCode\":3}\
             ],\"dateAdded\":0,\"lastModified\":0,\"title\":\"2\",\
             \"type\":\"text/x-moz-place-container\",\"typeCode\":2},\
             {\"dateAdded\":5000000,\"lastModified\":4000000,\"title\":\"3\",\
             \"type\":\"text/x-moz-place\",\"typeCode\":1,\"uri\":\"https://a.example/\"}\
             ],\"dateAdded\":1000000,\"lastModified\":2000000,\"title\":\"1\",\
             \"type\":\"text/x-moz-place-container\",\"typeCode\":2},\
             {\"dateAdded\":0,\"lastModified\":0,\"title\":\"\",\
             \"type\":\"text/x-moz-place-separator\",\"typeCode\":3}",
            "",
            "",
            "{\"children\":[{\"children\":[\
             {\"children\":[],\"dateAdded\":0,\"lastModified\":0,\"title\":\"z\",\
             \"type\":\"text/x-moz-place-container\",\"typeCode\":2}\
             ],\"dateAdded\":0,\"lastModified\":0,\"title\":\"y\",\
             \"type\":\"text/x-moz-place-container\",\"typeCode\":2}\
             ],\"dateAdded\":0,\"lastModified\":0,\"title\":\"x\",\
             \"type\":\"text/x-moz-place-container\",\"typeCode\":2}",
        ),
    ),
    // Dates to the microsecond, the last of all among them, and one before that of the addition.
    (
        "",
        "bookmark\t2\tend\tabout:blank\ta\t999999\nretitle\t7\tb\t1000000\n\
         folder\t2\tend\tc\t253402300799999999\nretitle\t8\td\t1999999\n",
        (
            "{\"dateAdded\":999999,\"lastModified\":1000000,\"title\":\"b\",\
             \"type\":\"text/x-moz-place\",\"typeCode\":1,\"uri\":\"about:blank\"},\
             {\"children\":[],\"dateAdded\":253402300799999999,\"lastModified\":1999999,\
             \"title\":\"d\",\"type\":\"text/x-moz-place-container\",\"typeCode\":2}",
            "",
            "",
            "",
        ),
    ),
    // A page with two bookmarks, one that has a tag and no bookmark, and one that was visited.
    (
        "",
        "visit\thttps://v.example/\t2\t0\ntag\thttps://t.example/\tRed\t0\n\
         bookmark\t2\tend\thttps://a.example/\tone\t0\ntitle\thttps://a.example/\tPage\n\
         tag\thttps://a.example/\tRED\t0\nbookmark\t5\tend\thttps://a.example/\ttwo\t1000000\n",
        (
            "{\"dateAdded\":0,\"lastModified\":0,\"tags\":\"Red\",\"title\":\"one\",\
             \"type\":\"text/x-moz-place\",\"typeCode\":1,\"uri\":\"https://a.example/\"}",
            "",
            "{\"dateAdded\":1000000,\"lastModified\":1000000,\"tags\":\"Red\",\"title\":\"two\",\
             \"type\":\"text/x-moz-place\",\"typeCode\":1,\"uri\":\"https://a.example/\"}",
            "",
        ),
    ),
    // Tags by their folds: that of the sharp s is two letters.
    (
        "<A HREF='https://t.example/' TAGS='Zed,É,&apos;s&apos;,&lt;t&gt;,ß,st,\u{1f600}'>t",
        "tag\thttps://t.example/\t a & b \t0\ntag\thttps://t.example/\tapple\t0\n\
         tag\thttps://t.example/\t\"q\"\t0\ntag\thttps://t.example/\t&\t0\n\
         tag\thttps://t.example/\tin\\tner\t0\ntag\thttps://t.example/\t\u{2028}\t0\n",
        (
            "{\"dateAdded\":0,\"lastModified\":0,\
             \"tags\":\"\\\"q\\\",&,'s',<t>,a & b,apple,in\\tner,ß,st,Zed,É,\u{2028},\u{1f600}\",\
             \"title\":\"t\",\"type\":\"text/x-moz-place\",\"typeCode\":1,\
             \"uri\":\"https://t.example/\"}",
            "",
            "",
            "",
        ),
    ),
    // Addresses: a URL of a scheme without an authority keeps its marks.
    (
        "<A HREF=\"https://a.example/it's?x=1&amp;amp=2#&lt;z&gt;&quot;\">a",
        "bookmark\t2\tend\tjavascript:f(\"<a>&'b'\")\tb\t0\n",
        (
            "{\"dateAdded\":0,\"lastModified\":0,\"title\":\"a\",\
             \"type\":\"text/x-moz-place\",\"typeCode\":1,\
             \"uri\":\"https://a.example/it's?x=1&amp=2#%3Cz%3E%22\"},\
             {\"dateAdded\":0,\"lastModified\":0,\"title\":\"b\",\
             \"type\":\"text/x-moz-place\",\"typeCode\":1,\
             \"uri\":\"javascript:f(\\\"<a>&'b'\\\")\"}",
            "",
            "",
            "",
        ),
    ),
];

#[test]
fn backs_up_stores(rt: HostRuntime) -> Result<(), Fail> {
    let alloc = rt.alloc();
    for (file, script, roots) in STORES {
        let desk = made(alloc, file, script)?;
        assert!(rt; !said_text(&desk).contains("refused"), "{script}");
        expect_roots(&rt, alloc, &desk, *roots)?;
    }
    Ok(())
}
