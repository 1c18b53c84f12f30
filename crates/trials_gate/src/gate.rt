// Small stores in memory, changes of them, and what a recovery gives back.
ghost use Rattle.std.specs.Prelude.{◌≡◌, ◌≤◌, ◌<◌, ℕ, ◌++◌, ◌∷◌, [], length, slice_index, true};
ghost use Rattle.std.specs.Prelude.{All, IfOk, OnOk};
ghost use Rattle.pl_base.specs.Touched.{ascends_above, has_number, page_numbers, IsWithin};

mod commits;
mod faults;
mod journals;
mod stops;

use pl_base::{DeviceFault, NoMemory, PAGE_SIZE, Touched};
use pl_desk::MemDesk;
use pl_gate::{Gate, GateError};
use std::alloc::{AllocError, Global};
use std::process::Abort;

// A change of a store: its lengths in pages before and after, and the old pages that it touches. It
// touches each page that it adds, too. Of its commit: the number of the call that syncs the set
// gate, and how many calls there are.
#[derive(Clone, Copy)]
struct Case {
    before: u8,
    after: u8,
    old: &'static [u8],
    armed: u32,
    calls: u32,
}

// One page and two, in a store that stays as long as it was, in one that grows, and in one that
// shrinks.
const FEW_PAGES: [Case; 5] = [
    Case {
        before: 2,
        after: 2,
        old: &[1],
        armed: 4,
        calls: 9,
    },
    Case {
        before: 2,
        after: 3,
        old: &[],
        armed: 4,
        calls: 9,
    },
    Case {
        before: 4,
        after: 2,
        old: &[1],
        armed: 4,
        calls: 9,
    },
    Case {
        before: 4,
        after: 4,
        old: &[1, 3],
        armed: 5,
        calls: 11,
    },
    Case {
        before: 2,
        after: 3,
        old: &[1],
        armed: 5,
        calls: 11,
    },
];

const FIVE_PAGES: Case = Case {
    before: 6,
    after: 6,
    old: &[1, 2, 3, 4, 5],
    armed: 8,
    calls: 17,
};

const FIVE_PAGES_LONGER: Case = Case {
    before: 5,
    after: 7,
    old: &[1, 2, 4],
    armed: 8,
    calls: 17,
};

// A page of one byte, but for its ends.
fn page_of(byte: u8) -> [u8; PAGE_SIZE] {
    let mut page = [byte; PAGE_SIZE];
    page[0] = b'<';
    page[PAGE_SIZE - 1] = b'>';
    page
}

fn old_page(page: u8) -> [u8; PAGE_SIZE] {
    page_of(page | 32)
}

fn new_page(page: u8) -> [u8; PAGE_SIZE] {
    page_of(page | 64)
}

// A file whose gate is not set, with the pages before the change.
fn file_before(alloc: Global, case: &Case) -> Result<Vec<u8>, AllocError> {
    let mut file = Vec::from_slice(alloc, &page_of(b'g'))?;
    for page in 1..case.before {
        file.extend_from_slice(&old_page(page))?;
    }
    Ok(file)
}

// The pages before the change, from page 1 on.
fn pages_before(alloc: Global, case: &Case) -> Result<Vec<u8>, AllocError> {
    let mut pages = Vec::new(alloc);
    for page in 1..case.before {
        pages.extend_from_slice(&old_page(page))?;
    }
    Ok(pages)
}

// The pages after it.
fn pages_after(alloc: Global, case: &Case) -> Result<Vec<u8>, AllocError> {
    let mut pages = Vec::new(alloc);
    for page in 1..case.after {
        let is_new = page >= case.before || case.old.iter().any(|&old| old == page);
        let image = if is_new {
            new_page(page)
        } else {
            old_page(page)
        };
        pages.extend_from_slice(&image)?;
    }
    Ok(pages)
}

// The last touched page, or 0.
fn last_of(touched: &Touched) -> u32
    ensures last { result ≡ slice_index (0 ∷ page_numbers touched.now.pages)
        (length touched.now.pages) }
    ensures ascending { ascends_above 0 (page_numbers touched.now.pages) ≡ true }
{
    let count = touched.count();
    if count == 0 {
        return 0;
    }
    touched.page(count - 1)
}

// Adds a page with its new bytes.
fn touch(rt: &impl Abort, touched: &mut Touched, page: u8) -> Result<(), NoMemory>
    ensures number { OnOk result
        (page_numbers touched.new.pages ≡ page_numbers touched.old.pages ++ page ∷ []) }
    ensures below { OnOk result (page < touched.old.after) }
    ensures before { touched.new.before ≡ touched.old.before }
    ensures after { touched.new.after ≡ touched.old.after }
{
    let number = u32::from(page);
    let last = last_of(touched);
    assert!(rt; last < number);
    assert!(rt; number < touched.after());
    touched.push(number, &new_page(page))
}

// Adds each page that the change adds.
fn touch_added(rt: &impl Abort, touched: &mut Touched, case: &Case) -> Result<(), NoMemory>
    ensures below { OnOk result
        (All (λ n. n < touched.old.after) (page_numbers touched.old.pages)
        → All (λ n. n < touched.old.after) (page_numbers touched.new.pages)) }
    ensures added { OnOk result
        ((n : ℕ) → case.now.before ≤ n → n < case.now.after
        → has_number n touched.new.pages ≡ true) }
    ensures before { touched.new.before ≡ touched.old.before }
    ensures after { touched.new.after ≡ touched.old.after }
{
    for page in case.before..case.after {
        touch(rt, touched, page)?;
    }
    Ok(())
}

// The change.
fn touched_by(rt: &impl Abort, alloc: Global, case: &Case) -> Result<Touched, NoMemory>
    ensures within { IfOk result (λ touched. IsWithin touched) }
    ensures before { IfOk result (λ touched. 1 ≤ touched.before) }
{
    assert!(rt; case.before > 0);
    assert!(rt; case.after > 0);
    let mut touched = Touched::empty(alloc, u32::from(case.before), u32::from(case.after));
    for page in case.old {
        touch(rt, &mut touched, *page)?;
    }
    touch_added(rt, &mut touched, case)?;
    Ok(touched)
}

fn commit(desk: &mut MemDesk, touched: &Touched) -> Result<(), DeviceFault>
    requires within { IsWithin touched.now }
    requires some { 1 ≤ touched.now.before }
{
    let mut gate = Gate::of(desk);
    let closed = gate.adopt();
    let staged = gate.stage(closed, touched)?;
    let armed = gate.arm(staged)?;
    let installed = gate.install(armed)?;
    let _ = gate.disarm(installed)?;
    Ok(())
}

fn recover(desk: &mut MemDesk) -> Result<(), GateError> {
    let _ = Gate::of(desk).recover()?;
    Ok(())
}

// Whether the bytes of the file from page 1 on begin with these.
fn holds(desk: &MemDesk, pages: &[u8]) -> bool {
    desk.bytes().len() >= PAGE_SIZE && desk.bytes()[PAGE_SIZE..].starts_with(pages)
}
