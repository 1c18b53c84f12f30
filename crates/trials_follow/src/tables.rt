// What the views of the tests are made of.

// Ids are less.
pub const IDS: u32 = 400;

// How many paths there are with each prefix and host.
pub const PATHS: u32 = 24;

pub const PREFIXES: &[&str] = &["https://", "http://", "about:"];

// Two hosts that were forged: behind `https://`, and with a path of two digits, the URLs of both
// have one digest.
pub const FORGED: &str = "apbqkf--jb9tk8uo.test";

pub const FORGED_TOO: &str = "assxbe--ll1a15f3.test";

pub const HOSTS: &[&str] = &[
    "example.org",
    "www.example.org",
    "a.example",
    "www.a.example",
    "www.www.a.example",
    "b.example:8080",
    "www.",
    "",
    FORGED,
    FORGED_TOO,
];

pub const TITLES: &[&str] = &[
    "",
    "a title",
    "Straße",
    "STRA\u{1e9e}E",
    "ΣΊΣΥΦΟΣ",
    "\u{fb03} \u{130}",
    "Éclair 日本",
];

pub const MARK_TITLES: &[&str] = &["", "", "STRASSE", "É"];

pub const TAGS: &[&str] = &["", "a,B", "Käse,ÖL"];

pub const FRECENCIES: &[i64] = &[-1, 0, 1, 100, 140, 2_000];

// What group names begin with.
pub const BEGINNINGS: &[&str] = &["", "e", "example.org", "a", "a.example", "b", "www.", "z"];

// Due days are these many from the first one on.
pub const FIRST_DUE: u32 = 20_001;

pub const DUE_DAYS: u32 = 30;
