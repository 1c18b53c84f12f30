// A page more, with memory for it and without. The allocations of a run in which one fails, by
// `rt try --test --fail-alloc N`, are those of the growth too: one where the bytes of pages are
// full, one where the marks of 64 pages are, and two where those of 4,096 are.

use crate::sheets::{grow, page_of, put, zeros};
use pl_base::{NoMemory, PAGE_SIZE, Touched};
use pl_sheets::Sheets;
use std::alloc::Global;
use std::process::Abort;
use std::test::Fail;

// So many pages are made, and two are added.
const PAGES: &[u32] = &[2, 63, 4_095];

// The pages that have changed, also where memory for the list was found at a second call.
fn touched(sheets: &mut Sheets) -> Result<Touched, NoMemory> {
    match sheets.touched() {
        Ok(touched) => Ok(touched),
        Err(_) => sheets.touched(),
    }
}

// These pages have changed.
fn check_touched(
    rt: &impl Abort,
    sheets: &mut Sheets,
    before: u32,
    pages: &[u32],
) -> Result<(), NoMemory> {
    let touched = touched(sheets)?;
    assert!(rt; touched.before() == before && touched.after() == sheets.pages());
    assert!(rt; touched.count() == pages.len(), "{before}");
    for (index, page) in pages.iter().enumerate() {
        assert!(rt; touched.page(index) == *page, "{before}");
    }
    Ok(())
}

// Of the first pages and the last ones the first byte of page 1 alone is not 0.
fn check_pages(rt: &impl Abort, sheets: &Sheets, first: u8) {
    let pages = sheets.pages();
    assert!(rt; pages > 1);
    for page in [0, 1, pages / 2, pages - 2, pages - 1] {
        let mut wanted = [0; PAGE_SIZE];
        wanted[0] = if page == 1 { first } else { 0 };
        assert!(rt; page_of(rt, sheets, page) == wanted, "{page}");
    }
}

// Page 1 changes, and a page is added; or nothing else changes.
fn check_grow(rt: &impl Abort, sheets: &mut Sheets, first: u8) -> Result<(), NoMemory> {
    let pages = sheets.pages();
    put(rt, sheets, 1, 0, &[first]);
    let grown = grow(rt, sheets).ok();
    check_pages(rt, sheets, first);
    match grown {
        Some(page) => {
            assert!(rt; page == pages && u64::from(sheets.pages()) == u64::from(pages) + 1);
            check_touched(rt, sheets, pages, &[1, pages])
        }
        None => {
            assert!(rt; sheets.pages() == pages);
            check_touched(rt, sheets, pages, &[1])
        }
    }
}

fn check_growths(rt: &impl Abort, alloc: Global, pages: u32) -> Result<(), NoMemory> {
    let mut sheets = zeros(rt, alloc, pages)?;
    check_grow(rt, &mut sheets, 1)?;
    check_grow(rt, &mut sheets, 2)
}

#[test]
fn a_page_without_memory_changes_nothing(rt: HostRuntime) -> Result<(), Fail> {
    for pages in PAGES {
        check_growths(&rt, rt.alloc(), *pages)?;
    }
    Ok(())
}
