// Dates, tags and addresses.
use crate::shown::expect_trees;
use std::test::Fail;

const VALUES: &[(&str, &str)] = &[
    // Dates are seconds up to the end of 9999.
    ("<A HREF='http://a/' ADD_DATE='5'>", "|m0b[] http://a/ +5"),
    (
        "<A HREF='http://a/' ADD_DATE='5' LAST_MODIFIED='7'>",
        "|m0b[] http://a/ +5 ~7",
    ),
    (
        "<A HREF='http://a/' LAST_MODIFIED='7'>",
        "|m0b[] http://a/ ~7",
    ),
    (
        "<A HREF='http://a/' ADD_DATE=253402300799>",
        "|m0b[] http://a/ +253402300799",
    ),
    (
        "<A HREF='http://a/' ADD_DATE='253402300800' LAST_MODIFIED='9'>",
        "|m0b[] http://a/ ~9",
    ),
    (
        "<A HREF='http://a/' ADD_DATE='5' LAST_MODIFIED='253402300800'>",
        "|m0b[] http://a/ +5",
    ),
    ("<A HREF='http://a/' ADD_DATE='05'>", "|m0b[] http://a/"),
    ("<A HREF='http://a/' ADD_DATE='+5'>", "|m0b[] http://a/"),
    ("<A HREF='http://a/' ADD_DATE=' 5'>", "|m0b[] http://a/"),
    ("<A HREF='http://a/' ADD_DATE='5.0'>", "|m0b[] http://a/"),
    ("<A HREF='http://a/' ADD_DATE='-5'>", "|m0b[] http://a/"),
    (
        "<A HREF='http://a/' ADD_DATE='18446744073709551616'>",
        "|m0b[] http://a/",
    ),
    (
        "<A HREF='http://a/' ADD_DATE='&#53;'>",
        "|m0b[] http://a/ +5",
    ),
    ("<H3 ADD_DATE=1 LAST_MODIFIED=2>f", "|m0f[f] +1 ~2"),
    // Tags that fold alike are one, the first.
    (
        "<A HREF='http://a/' TAGS='red,Blue'>",
        "|m0b[] http://a/ #red,Blue",
    ),
    (
        "<A HREF='http://a/' TAGS=' red , ,red,RED,blue'>",
        "|m0b[] http://a/ #red,blue",
    ),
    (
        "<A HREF='http://a/' TAGS='Stra&#223;e,STRASSE'>",
        "|m0b[] http://a/ #Straße",
    ),
    (
        "<A HREF='http://a/' TAGS='a&#44;b'>",
        "|m0b[] http://a/ #a,b",
    ),
    ("<A HREF='http://a/' TAGS=',,'>", "|m0b[] http://a/"),
    ("<H3 TAGS='x'>f", "|m0f[f]"),
    // Addresses as the URL Standard reads them.
    (
        "<A HREF='http://a/?x=1&amp;y=2'>",
        "|m0b[] http://a/?x=1&y=2",
    ),
    ("<A HREF=' HTTP://A.Example '>", "|m0b[] http://a.example/"),
    ("<A HREF='javascript:void(0)'>", "|m0b[] javascript:void(0)"),
    (
        "<A HREF='place:sort=8&maxResults=10'>",
        "|m0b[] place:sort=8&maxResults=10",
    ),
    ("<A HREF='a.html'><A HREF=''><A>", "|skipped 3"),
];

#[test]
fn values_are_read(rt: HostRuntime) -> Result<(), Fail> {
    expect_trees(&rt, rt.alloc(), VALUES)
}

// A tag has at most a hundred bytes.
#[test]
fn long_tags_are_none(rt: HostRuntime) -> Result<(), Fail> {
    let alloc = rt.alloc();
    let hundred = "0123456789".repeat(alloc, 10)?;
    let hundred = hundred.as_str();
    let body = format!(in alloc; "<A HREF='http://a/' TAGS='{hundred},{hundred}x'>")?;
    let tree = format!(in alloc; "|m0b[] http://a/ #{hundred}")?;
    expect_trees(&rt, alloc, &[(body.as_str(), tree.as_str())])
}
