// Whole files: what is no backup, and where the lists of the roots stand.
use crate::told::expect_told;
use std::test::Fail;

const FILES: &[(&[u8], &str)] = &[
    // No JSON.
    (b"", "refused 1"),
    (b" \n", "refused 1"),
    (b"{", "refused 1"),
    (b"{\"children\":[]", "refused 1"),
    (b"{\"children\":[]}x", "refused 1"),
    (b"{\"children\":[]}{\"children\":[]}", "refused 1"),
    (b"{\"children\":[],}", "refused 1"),
    (b"{'children':[]}", "refused 1"),
    (b"{children:[]}", "refused 1"),
    (b"\xef\xbb\xbf{\"children\":[]}", "refused 1"),
    (b"{\"children\":[],\"x\":1e999}", "refused 1"),
    (b"{\"children\":[],\"x\":01}", "refused 1"),
    (b"{\"children\":[],\"x\":\"\\ud800\"}", "refused 1"),
    (b"{\"children\":[],\"x\":\"\t\"}", "refused 1"),
    (b"{\"children\":[],\"x\":\"\xff\"}", "refused 1"),
    // JSON, but no object with an array of children.
    (b"null", "refused 2"),
    (b"5", "refused 2"),
    (b"\"children\"", "refused 2"),
    (b"[1]", "refused 2"),
    (b"[{\"children\":[]}]", "refused 2"),
    (b"{}", "refused 2"),
    (b"{\"Children\":[]}", "refused 2"),
    (b"{\"children\":null}", "refused 2"),
    (b"{\"children\":{}}", "refused 2"),
    (b"{\"children\":[],\"children\":5}", "refused 2"),
    // Backups of nothing.
    (b"{\"children\":[]}", ""),
    (b" \t\r\n{ \"children\" : [ ] } \n", ""),
    (b"{\"children\":5,\"children\":[]}", ""),
    (b"{\"typeCode\":9,\"children\":[],\"guid\":5}", ""),
    (b"{\"children\":[5,null,\"x\",[{\"typeCode\":3}],{}]}", ""),
    (b"{\"children\":[{\"guid\":\"menu________\"}]}", ""),
    (
        b"{\"children\":[{\"guid\":\"menu________\",\"children\":{}}]}",
        "",
    ),
    // The root is that of the guid, or else that of its name.
    (
        b"{\"children\":[{\"guid\":\"mobile______\",\"children\":[{\"typeCode\":3}]},\
        {\"guid\":\"unfiled_____\",\"children\":[{\"typeCode\":3}]},\
        {\"guid\":\"toolbar_____\",\"children\":[{\"typeCode\":3}]},\
        {\"guid\":\"menu________\",\"children\":[{\"typeCode\":3}]}]}",
        "|m0s[]|t0s[]|u0s[]|o0s[]",
    ),
    (
        b"{\"children\":[{\"root\":\"mobileFolder\",\"children\":[{\"typeCode\":3}]},\
        {\"root\":\"unfiledBookmarksFolder\",\"children\":[{\"typeCode\":3}]},\
        {\"root\":\"toolbarFolder\",\"children\":[{\"typeCode\":3}]},\
        {\"root\":\"bookmarksMenuFolder\",\"children\":[{\"typeCode\":3}]}]}",
        "|m0s[]|t0s[]|u0s[]|o0s[]",
    ),
    (
        b"{\"children\":[{\"guid\":\"toolbar_____\",\"root\":\"mobileFolder\",\
        \"children\":[{\"typeCode\":3}]}]}",
        "|t0s[]",
    ),
    (
        b"{\"children\":[{\"guid\":\"a\",\"root\":\"mobileFolder\",\"children\":[{\"typeCode\":3}]}]}",
        "|o0s[]",
    ),
    (
        b"{\"children\":[{\"guid\":5,\"root\":\"mobileFolder\",\"children\":[{\"typeCode\":3}]}]}",
        "|o0s[]",
    ),
    // Another child of the top is passed over, with all that stands in it.
    (
        b"{\"children\":[{\"guid\":\"tags________\",\"root\":\"tagsFolder\",\
        \"children\":[5,{\"typeCode\":3}]}]}",
        "",
    ),
    (b"{\"children\":[{\"children\":[5,{\"typeCode\":3}]}]}", ""),
    (
        b"{\"children\":[{\"guid\":\"root________\",\"root\":\"placesRoot\",\"children\":[5]}]}",
        "",
    ),
    (
        b"{\"children\":[{\"typeCode\":3},{\"typeCode\":1,\"uri\":\"no url\"}]}",
        "",
    ),
    // A root that comes twice has the second list behind the first.
    (
        b"{\"children\":[{\"guid\":\"menu________\",\"children\":[{\"typeCode\":3,\"title\":\"a\"},5]},\
        {\"guid\":\"toolbar_____\",\"children\":[{\"typeCode\":3}]},\
        {\"root\":\"bookmarksMenuFolder\",\"children\":[{\"typeCode\":3,\"title\":\"b\"},6]}]}",
        "|m0s[a]|m0s[b]|t0s[]|skipped 2",
    ),
];

#[test]
fn each_file_is_its_tree_or_refused(rt: HostRuntime) -> Result<(), Fail> {
    for (bytes, wanted) in FILES {
        expect_told(&rt, rt.alloc(), bytes, wanted)?;
    }
    Ok(())
}
