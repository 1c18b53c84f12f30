// A backup that a Firefox made, of version 153.8.0, as its library writes one.
use crate::told::expect_told;
use std::test::Fail;

// One page has a keyword with data of its own, one is tagged, one has a charset, which is what a
// Firefox writes of annotations, and one has an icon.
const MADE: &[&str] = &[
    r#"{"guid":"root________","title":"","index":0,"dateAdded":1796201960068000,"#,
    r#""lastModified":1500000007000000,"id":1,"typeCode":2,"#,
    r#""type":"text/x-moz-place-container","root":"placesRoot","#,
    r#""children":[{"guid":"menu________","title":"menu","index":0,"#,
    r#""dateAdded":1796201960068000,"lastModified":1500000004000000,"id":2,"typeCode":2,"#,
    r#""type":"text/x-moz-place-container","root":"bookmarksMenuFolder","#,
    r#""children":[{"guid":"RFuM24SQqmiZ","title":"With a keyword","index":0,"#,
    r#""dateAdded":1500000000000000,"lastModified":1500000000000000,"id":7,"typeCode":1,"#,
    r#""type":"text/x-moz-place","uri":"https://keyword.example/?q=%s","keyword":"kw","#,
    r#""postData":"a=%s"},{"guid":"slcTfZFPh6AN","title":"Folder","index":1,"#,
    r#""dateAdded":1500000001000000,"lastModified":1500000004000000,"id":8,"typeCode":2,"#,
    r#""type":"text/x-moz-place-container","children":[{"guid":"n5qXg7PjFuGk","#,
    r#""title":"Tagged","index":0,"dateAdded":1500000002000000,"#,
    r#""lastModified":1500000002000000,"id":9,"typeCode":1,"tags":"Red,two words","#,
    r#""type":"text/x-moz-place","uri":"https://tagged.example/"},{"guid":"qdp2yvOrJStv","#,
    r#""title":"","index":1,"dateAdded":1500000003000000,"lastModified":1500000003000000,"#,
    r#""id":10,"typeCode":3,"type":"text/x-moz-place-separator"},{"guid":"NPRq9nXPE5Kx","#,
    r#""title":"","index":2,"dateAdded":1500000004000000,"lastModified":1500000004000000,"#,
    r#""id":11,"typeCode":1,"type":"text/x-moz-place","uri":"javascript:alert(1)"}]}]},"#,
    r#"{"guid":"toolbar_____","title":"toolbar","index":1,"dateAdded":1796201960068000,"#,
    r#""lastModified":1500000006000000,"id":3,"typeCode":2,"#,
    r#""type":"text/x-moz-place-container","root":"toolbarFolder","#,
    r#""children":[{"guid":"taeWagVOcC3e","title":"Recent tags","index":0,"#,
    r#""dateAdded":1500000005000000,"lastModified":1500000005000000,"id":12,"typeCode":1,"#,
    r#""type":"text/x-moz-place","uri":"place:type=6&sort=14&maxResults=10"},"#,
    r#"{"guid":"zw1hdhCg0Tla","title":"In Latin 1","index":1,"dateAdded":1500000006000000,"#,
    r#""lastModified":1500000006000000,"id":13,"typeCode":1,"charset":"windows-1252","#,
    r#""type":"text/x-moz-place","uri":"https://latin.example/"}]},{"guid":"unfiled_____","#,
    r#""title":"unfiled","index":3,"dateAdded":1796201960068000,"#,
    r#""lastModified":1500000007000000,"id":5,"typeCode":2,"#,
    r#""type":"text/x-moz-place-container","root":"unfiledBookmarksFolder","#,
    r#""children":[{"guid":"YwVQ5Rl7XaP4","title":"With an icon","index":0,"#,
    r#""dateAdded":1500000007000000,"lastModified":1500000007000000,"id":14,"typeCode":1,"#,
    r#""iconUri":"https://icon.example/favicon.png","type":"text/x-moz-place","#,
    r#""uri":"https://icon.example/"}]},{"guid":"mobile______","title":"mobile","index":4,"#,
    r#""dateAdded":1796201960119000,"lastModified":1796201969514000,"id":6,"typeCode":2,"#,
    r#""type":"text/x-moz-place-container","root":"mobileFolder"}]}"#,
];

// Kept are kinds, titles, addresses, tags and dates. Keywords, charsets, icons, GUIDs, numbers and
// the roots' own fields are passed over, and nothing is skipped.
const TREE: &str = "|m0b[With a keyword] https://keyword.example/?q=%s +1500000000000000\
    |m0f[Folder] +1500000001000000 ~1500000004000000\
    |m1b[Tagged] https://tagged.example/ +1500000002000000 #Red,two words\
    |m1s[] +1500000003000000\
    |m1b[] javascript:alert(1) +1500000004000000\
    |t0b[Recent tags] place:type=6&sort=14&maxResults=10 +1500000005000000\
    |t0b[In Latin 1] https://latin.example/ +1500000006000000\
    |u0b[With an icon] https://icon.example/ +1500000007000000";

#[test]
fn what_is_kept_of_a_backup_of_firefox(rt: HostRuntime) -> Result<(), Fail> {
    let alloc = rt.alloc();
    let mut file = String::new(alloc);
    for part in MADE {
        file.push_str(part)?;
    }
    expect_told(&rt, alloc, file.as_bytes(), TREE)
}
