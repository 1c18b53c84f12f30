// Values in the list of the menu, and the nodes that they are.
use crate::told::expect_told;
use std::test::Fail;

const VALUES: &[(&str, &str)] = &[
    ("", ""),
    // The three kinds, by number and by name.
    (
        r#"{"typeCode":1,"uri":"https://a.example/"}"#,
        "|m0b[] https://a.example/",
    ),
    (r#"{"typeCode":2}"#, "|m0f[]"),
    (r#"{"typeCode":3}"#, "|m0s[]"),
    (
        r#"{"type":"text/x-moz-place","uri":"https://a.example/"}"#,
        "|m0b[] https://a.example/",
    ),
    (r#"{"type":"text/x-moz-place-container"}"#, "|m0f[]"),
    (r#"{"type":"text/x-moz-place-separator"}"#, "|m0s[]"),
    // A whole number decides, whatever the name is.
    (
        r#"{"typeCode":1,"type":"text/x-moz-place-separator","uri":"https://a.example/"}"#,
        "|m0b[] https://a.example/",
    ),
    (
        r#"{"typeCode":3,"type":"text/x-moz-place","uri":"https://a.example/"}"#,
        "|m0s[]",
    ),
    (
        r#"{"typeCode":0,"type":"text/x-moz-place-separator"}"#,
        "|skipped 1",
    ),
    (
        r#"{"typeCode":4,"type":"text/x-moz-place-separator"}"#,
        "|skipped 1",
    ),
    (
        r#"{"typeCode":-1,"type":"text/x-moz-place-separator"}"#,
        "|skipped 1",
    ),
    (
        r#"{"typeCode":-9223372036854775808,"type":"text/x-moz-place-separator"}"#,
        "|skipped 1",
    ),
    (
        r#"{"typeCode":18446744073709551615,"type":"text/x-moz-place-separator"}"#,
        "|skipped 1",
    ),
    // What is no whole number leaves it to the name.
    (
        r#"{"typeCode":1.0,"type":"text/x-moz-place-separator"}"#,
        "|m0s[]",
    ),
    (
        r#"{"typeCode":1e0,"type":"text/x-moz-place-separator"}"#,
        "|m0s[]",
    ),
    (
        r#"{"typeCode":-0,"type":"text/x-moz-place-separator"}"#,
        "|m0s[]",
    ),
    (
        r#"{"typeCode":18446744073709551616,"type":"text/x-moz-place-separator"}"#,
        "|m0s[]",
    ),
    (
        r#"{"typeCode":-9223372036854775809,"type":"text/x-moz-place-separator"}"#,
        "|m0s[]",
    ),
    (
        r#"{"typeCode":"1","type":"text/x-moz-place-container"}"#,
        "|m0f[]",
    ),
    (
        r#"{"typeCode":null,"type":"text/x-moz-place-container"}"#,
        "|m0f[]",
    ),
    (r#"{"typeCode":3.0}"#, "|skipped 1"),
    (r#"{"typeCode":null}"#, "|skipped 1"),
    // Other names are those of no kind.
    (r#"{"type":"text/x-moz-place-query"}"#, "|skipped 1"),
    (r#"{"type":"TEXT/X-MOZ-PLACE-SEPARATOR"}"#, "|skipped 1"),
    (r#"{"type":"text/x-moz-place-separator "}"#, "|skipped 1"),
    (r#"{"type":3}"#, "|skipped 1"),
    (r#"{"TypeCode":3}"#, "|skipped 1"),
    // What is no object is no node, and nothing in it counts.
    ("{}", "|skipped 1"),
    ("null", "|skipped 1"),
    ("true", "|skipped 1"),
    ("3", "|skipped 1"),
    (r#""text/x-moz-place-separator""#, "|skipped 1"),
    (r#"[{"typeCode":3},5,6]"#, "|skipped 1"),
    (r#"{"children":[{"typeCode":3},5]}"#, "|skipped 1"),
    // Addresses.
    (r#"{"typeCode":1}"#, "|skipped 1"),
    (r#"{"typeCode":1,"uri":null}"#, "|skipped 1"),
    (
        r#"{"typeCode":1,"uri":["https://a.example/"]}"#,
        "|skipped 1",
    ),
    (r#"{"typeCode":1,"uri":""}"#, "|skipped 1"),
    (r#"{"typeCode":1,"uri":"no url"}"#, "|skipped 1"),
    (
        r#"{"typeCode":1,"uri":"HTTPS://A.example"}"#,
        "|m0b[] https://a.example/",
    ),
    (
        r#"{"typeCode":1,"uri":"about:blank"}"#,
        "|m0b[] about:blank",
    ),
    (
        r#"{"typeCode":1,"uri":"place:sort=8"}"#,
        "|m0b[] place:sort=8",
    ),
    // Titles.
    (r#"{"typeCode":3,"title":"A"}"#, "|m0s[A]"),
    (
        r#"{"typeCode":3,"title":" A\t\"\\\/\u0042 "}"#,
        "|m0s[ A\t\"\\/B ]",
    ),
    (
        r#"{"typeCode":3,"title":"\ud83d\ude00"}"#,
        "|m0s[\u{1f600}]",
    ),
    (r#"{"typeCode":3,"title":5}"#, "|m0s[]"),
    (r#"{"typeCode":3,"title":null}"#, "|m0s[]"),
    (r#"{"typeCode":3,"title":["A"]}"#, "|m0s[]"),
    // Dates are whole microseconds in their range.
    (r#"{"typeCode":3,"dateAdded":5}"#, "|m0s[] +5"),
    (
        r#"{"typeCode":3,"dateAdded":5,"lastModified":7}"#,
        "|m0s[] +5 ~7",
    ),
    (
        r#"{"typeCode":3,"dateAdded":7,"lastModified":5}"#,
        "|m0s[] +7 ~5",
    ),
    (
        r#"{"typeCode":3,"dateAdded":5,"lastModified":0}"#,
        "|m0s[] +5 ~0",
    ),
    (r#"{"typeCode":3,"lastModified":7}"#, "|m0s[] ~7"),
    (
        r#"{"typeCode":3,"dateAdded":253402300799999999}"#,
        "|m0s[] +253402300799999999",
    ),
    (r#"{"typeCode":3,"dateAdded":253402300800000000}"#, "|m0s[]"),
    (
        r#"{"typeCode":3,"dateAdded":5,"lastModified":253402300800000000}"#,
        "|m0s[] +5",
    ),
    (r#"{"typeCode":3,"dateAdded":-1}"#, "|m0s[]"),
    (r#"{"typeCode":3,"dateAdded":5.0}"#, "|m0s[]"),
    (r#"{"typeCode":3,"dateAdded":5e3}"#, "|m0s[]"),
    (r#"{"typeCode":3,"dateAdded":"5"}"#, "|m0s[]"),
    (
        r#"{"typeCode":3,"dateAdded":18446744073709551616}"#,
        "|m0s[]",
    ),
    (
        r#"{"typeCode":3,"dateAdded":5,"lastModified":1.5}"#,
        "|m0s[] +5",
    ),
    (
        r#"{"typeCode":3,"dateAdded":5,"lastModified":"7"}"#,
        "|m0s[] +5",
    ),
    // Tags of bookmarks, apart by commas, each once.
    (
        r#"{"typeCode":1,"uri":"https://a.example/","tags":"Red"}"#,
        "|m0b[] https://a.example/ #Red",
    ),
    (
        r#"{"typeCode":1,"uri":"https://a.example/","tags":"b,a,B,c"}"#,
        "|m0b[] https://a.example/ #b,a,c",
    ),
    (
        r#"{"typeCode":1,"uri":"https://a.example/","tags":" a , b\t,,"}"#,
        "|m0b[] https://a.example/ #a,b",
    ),
    (
        r#"{"typeCode":1,"uri":"https://a.example/","tags":""}"#,
        "|m0b[] https://a.example/",
    ),
    (
        r#"{"typeCode":1,"uri":"https://a.example/","tags":["a"]}"#,
        "|m0b[] https://a.example/",
    ),
    (r#"{"typeCode":2,"tags":"a"}"#, "|m0f[]"),
    // What stands in a folder, one deeper.
    (
        r#"{"typeCode":2,"title":"F","children":[{"typeCode":1,"uri":"about:a"}]},{"typeCode":3}"#,
        "|m0f[F]|m1b[] about:a|m0s[]",
    ),
    (
        r#"{"typeCode":2,"children":[{"typeCode":2,"children":[{"typeCode":3}]},{"typeCode":3}]}"#,
        "|m0f[]|m1f[]|m2s[]|m1s[]",
    ),
    (
        r#"{"typeCode":2,"children":[5,{"typeCode":3},{}]}"#,
        "|m0f[]|m1s[]|skipped 2",
    ),
    (r#"{"typeCode":2,"children":[]}"#, "|m0f[]"),
    (
        r#"{"typeCode":2,"children":{"0":{"typeCode":3}}}"#,
        "|m0f[]",
    ),
    (r#"{"typeCode":2,"children":null}"#, "|m0f[]"),
    // Children of no folder, and the address of a folder, are passed over.
    (r#"{"typeCode":3,"children":[5,{"typeCode":3}]}"#, "|m0s[]"),
    (
        r#"{"typeCode":1,"uri":"about:a","children":[5,{"typeCode":3}]}"#,
        "|m0b[] about:a",
    ),
    (r#"{"typeCode":2,"uri":"no url"}"#, "|m0f[]"),
    // The last of equal keys counts; other keys are passed over.
    (r#"{"typeCode":3,"typeCode":2}"#, "|m0f[]"),
    (r#"{"typeCode":3,"title":"a","title":"b"}"#, "|m0s[b]"),
    (r#"{"typeCode":3,"title":"a","title":5}"#, "|m0s[]"),
    (
        r#"{"guid":"x","id":9,"index":4,"annos":[{"name":"n","value":1}],"charset":"UTF-8",
        "iconUri":"https://a.example/i","keyword":"k","postData":null,"typeCode":3}"#,
        "|m0s[]",
    ),
];

#[test]
fn each_value_is_its_nodes(rt: HostRuntime) -> Result<(), Fail> {
    let alloc = rt.alloc();
    for (values, wanted) in VALUES {
        let mut file = String::from_str(alloc, "{\"children\":[{\"guid\":\"menu________\",")?;
        file.push_str("\"children\":[")?;
        file.push_str(values)?;
        file.push_str("]}]}")?;
        expect_told(&rt, alloc, file.as_bytes(), wanted)?;
    }
    Ok(())
}
