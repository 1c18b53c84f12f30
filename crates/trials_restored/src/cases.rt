// Stores, trees and what restores take, worked out by hand.

/// The slots of a store, and how many pages and items are made. There is a slot for each origin,
/// page, visit and item, six items among them, and one for each begun 120 bytes of a URL or title.
pub type Told = (u64, u64, u64);

/// The lines of a store, the values in the lists of a backup's menu and mobile bookmarks, and what
/// the restore of the backup takes.
pub struct Case {
    pub lines: &'static [&'static str],
    pub menu: &'static str,
    pub mobile: &'static str,
    pub cost: Told,
}

/// A visited page with a title, a page in the menu, one in the toolbar with a tag, and one that has
/// the tag alone: 3 origins, 4 pages, 11 items.
pub const FULL: &[&str] = &[
    "visit\thttps://a.example/\t1\t0",
    "title\thttps://a.example/\tA",
    "bookmark\t2\tend\thttps://a.example/1\tone\t0",
    "bookmark\t3\tend\thttps://b.example/\t\t0",
    "tag\thttps://b.example/\tRed\t0",
    "tag\thttps://c.example/\tred\t0",
];

pub const CASES: &[Case] = &[
    // No tree leaves the visited page with its title.
    Case {
        lines: FULL,
        menu: "",
        mobile: "",
        cost: (1 + 3 + 1 + 6, 0, 0),
    },
    // The same bookmarks again: the page that has the tag alone goes, with its origin.
    Case {
        lines: FULL,
        menu: r#"{"typeCode":1,"uri":"https://a.example/1","title":"one"},
            {"typeCode":1,"uri":"https://b.example/","tags":"Red"}"#,
        mobile: "",
        cost: (2 + 7 + 1 + 10 + 2, 0, 4),
    },
    // A page that has a bookmark alone comes back, and is the same page.
    Case {
        lines: &["bookmark\t3\tend\thttps://b.example/\tB\t0"],
        menu: "",
        mobile: r#"{"typeCode":1,"uri":"https://b.example/"}"#,
        cost: (1 + 2 + 7, 0, 1),
    },
    // Two pages go: one with its origin, the other one's has a new page.
    Case {
        lines: &[
            "bookmark\t2\tend\thttps://a.example/1\t\t0",
            "bookmark\t2\tend\thttps://b.example/\t\t0",
        ],
        menu: r#"{"typeCode":1,"uri":"https://a.example/2","title":"two"}"#,
        mobile: "",
        cost: (1 + 2 + 7 + 1, 1, 1),
    },
    // Two pages have a tag, and no bookmark: one comes back, the other one is visited.
    Case {
        lines: &[
            "tag\thttps://c.example/\tRed\t0",
            "visit\thttps://d.example/\t1\t0",
            "tag\thttps://d.example/\tRed\t0",
        ],
        menu: r#"{"typeCode":2,"title":"F","children":[
            {"typeCode":1,"uri":"https://c.example/","title":"C"}]}"#,
        mobile: "",
        cost: (2 + 4 + 1 + 8 + 2, 0, 2),
    },
    // A tag in several spellings is one, made anew, and a page gets it once.
    Case {
        lines: &[
            "visit\thttps://a.example/\t1\t0",
            "tag\thttps://a.example/\tRED\t0",
        ],
        menu: r#"{"typeCode":1,"uri":"https://a.example/","tags":"Red"}"#,
        mobile: r#"{"typeCode":1,"uri":"https://b.example/","tags":"red,blue"},
            {"typeCode":1,"uri":"https://a.example/","tags":"rED"}"#,
        cost: (2 + 4 + 1 + 14 + 2, 1, 8),
    },
    // On the opening store: one page has two bookmarks, and another scheme is another origin.
    Case {
        lines: &[],
        menu: r#"{"typeCode":2,"title":"F","children":[
            {"typeCode":3},{"typeCode":1,"uri":"https://a.example/"}]}"#,
        mobile: r#"{"typeCode":1,"uri":"https://a.example/"},
            {"typeCode":1,"uri":"http://a.example/"}"#,
        cost: (2 + 4 + 11 + 1, 2, 5),
    },
    // Titles of 120 and of 121 bytes, and a URL of 121.
    Case {
        lines: &[],
        menu: "{\"typeCode\":2,\"title\":\"01234567890123456789\
            01234567890123456789012345678901234567890123456789\
            01234567890123456789012345678901234567890123456789\"},\
            {\"typeCode\":1,\"title\":\"012345678901234567890\
            01234567890123456789012345678901234567890123456789\
            01234567890123456789012345678901234567890123456789\",\
            \"uri\":\"https://a.example/012\
            01234567890123456789012345678901234567890123456789\
            01234567890123456789012345678901234567890123456789\"}",
        mobile: "",
        cost: (1 + 3 + 8 + 3, 1, 2),
    },
];
