use pl_base::{NoMemory, PAGE_SIZE};
use pl_sheets::Sheets;
use std::alloc::Global;
use std::process::Abort;
use std::test::Fail;

// What is put into a page, and from which place on.
type Put = (u32, usize, &'static [u8]);

// What is put into four pages of zeros one after another, and the pages that have changed then.
const PUTS: &[(&str, &[Put], &[u32])] = &[
    ("nothing", &[], &[]),
    ("no byte", &[(1, 0, b""), (2, 1024, b"")], &[]),
    (
        "the bytes that stand there",
        &[(1, 0, b"\0\0"), (3, 1022, b"\0\0")],
        &[],
    ),
    ("one byte", &[(1, 0, b"x")], &[1]),
    (
        "the first byte and the last",
        &[(3, 1023, b"x"), (2, 0, b"x")],
        &[2, 3],
    ),
    (
        "one byte among many that stand there",
        &[(2, 500, b"\0\0\0x")],
        &[2],
    ),
    (
        "a byte that is put back",
        &[(2, 7, b"x"), (2, 7, b"\0")],
        &[2],
    ),
    ("the same byte twice", &[(3, 7, b"x"), (3, 7, b"x")], &[3]),
    (
        "in descending order",
        &[(3, 9, b"x"), (2, 9, b"x"), (1, 9, b"x")],
        &[1, 2, 3],
    ),
];

// The pages at the ends of words of each level of marks, and the last ones of the longest store.
const ENDS: &[u32] = &[
    1, 63, 64, 4_095, 4_096, 262_143, 262_144, 500_000, 524_288, 524_289,
];

const MOST_PAGES: u32 = 524_290;

// So many pages of zeros.
pub fn zeros(rt: &impl Abort, alloc: Global, pages: u32) -> Result<Sheets, NoMemory> {
    assert!(rt; pages > 0);
    Sheets::from_bytes(vec![in alloc; 0; PAGE_SIZE * pages as usize]?)
}

pub fn put(rt: &impl Abort, sheets: &mut Sheets, page: u32, at: usize, bytes: &[u8]) {
    assert!(rt; page > 0 && page < sheets.pages());
    assert!(rt; at <= PAGE_SIZE && bytes.len() <= PAGE_SIZE - at);
    sheets.put(page, at, bytes);
}

pub fn grow(rt: &impl Abort, sheets: &mut Sheets) -> Result<u32, NoMemory> {
    assert!(rt; sheets.pages() < u32::MAX);
    sheets.grow()
}

// What a page holds.
pub fn page_of(rt: &impl Abort, sheets: &Sheets, page: u32) -> [u8; PAGE_SIZE] {
    assert!(rt; page < sheets.pages());
    let mut bytes = [0; PAGE_SIZE];
    sheets.get(page, 0, &mut bytes);
    bytes
}

// These pages are listed, with what they hold, and these numbers of pages; and then none.
fn expect_touched(
    rt: &impl Abort,
    sheets: &mut Sheets,
    before: u32,
    pages: &[u32],
    told: &str,
) -> Result<(), NoMemory> {
    let touched = sheets.touched()?;
    assert!(rt;
        touched.before() == before && touched.after() == sheets.pages(),
        "{told}"
    );
    assert!(rt; touched.count() == pages.len(), "{told}");
    for (index, page) in pages.iter().enumerate() {
        assert!(rt; touched.page(index) == *page, "{told}");
        assert!(rt;
            touched.image(index) == &page_of(rt, sheets, *page)[..],
            "{told}"
        );
    }
    let again = sheets.touched()?;
    assert!(rt;
        again.count() == 0 && again.before() == sheets.pages(),
        "{told}"
    );
    Ok(())
}

#[test]
fn changed_pages_are_listed(rt: HostRuntime) -> Result<(), Fail> {
    for (told, puts, changed) in PUTS {
        let mut sheets = zeros(&rt, rt.alloc(), 4)?;
        for (page, at, bytes) in puts.iter() {
            put(&rt, &mut sheets, *page, *at, bytes);
        }
        expect_touched(&rt, &mut sheets, 4, changed, told)?;
    }
    Ok(())
}

#[test]
fn one_page_grows(rt: HostRuntime) -> Result<(), Fail> {
    let mut sheets = zeros(&rt, rt.alloc(), 1)?;
    expect_touched(&rt, &mut sheets, 1, &[], "as it was made")?;
    for page in 1..130 {
        assert_eq!(rt; grow(&rt, &mut sheets)?, page);
        expect_touched(&rt, &mut sheets, page, &[page], "grown")?;
    }
    Ok(())
}

#[test]
fn the_longest_store_lists_ten_changes(rt: HostRuntime) -> Result<(), Fail> {
    let mut sheets = zeros(&rt, rt.alloc(), MOST_PAGES)?;
    for page in ENDS.iter().rev() {
        put(&rt, &mut sheets, *page, 3, &page.to_le_bytes());
    }
    expect_touched(&rt, &mut sheets, MOST_PAGES, ENDS, "ten changes")?;
    put(&rt, &mut sheets, 4_096, 3, b"x");
    expect_touched(&rt, &mut sheets, MOST_PAGES, &[4_096], "one more")?;
    Ok(())
}
