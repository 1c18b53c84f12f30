// The bytes that a commit writes: an image and a number for each page that it changes, and little
// more. A line that changes nothing writes none.
ghost use Rattle.std.specs.Prelude.{Some, length};
ghost use Rattle.pl_desk.specs.MemDesk.{held_by, written_in, MayLeave, ShownSince};
ghost use Rattle.pl_desk.specs.Replay.{told_together, counts_now, shown_now, only_now};

use pl_desk::{Desk, Failed, MemDesk, MemSource};
use places::{Status, run};
use std::alloc::Global;
use std::test::Fail;
use trials_desks::done;

// A desk in memory that counts the bytes which are written to it.
#[derive(Drop)]
struct CountingDesk {
    desk: MemDesk,
    written: usize,
}

impl Desk for CountingDesk {
    ghost held = { λ d. Some (held_by d.desk) };

    ghost said = { λ d. Some d.desk.said };

    ghost written = { λ d. written_in d.desk.calls };

    ghost device_faults = { λ d. d.desk.device_faults };

    ghost line_faults = { λ d. d.desk.line_faults };

    ghost may_leave = { λ d. MayLeave d.desk };

    ghost moment = { λ d. length d.desk.calls };

    ghost shown_since = { λ d. ShownSince d.desk };

    ghost told_together = { λ d. told_together d.desk };

    ghost counts_now = { λ d. counts_now d.desk };

    ghost shown_now = { λ d. shown_now d.desk };

    ghost only_now = { λ d. only_now d.desk };

    fn len(&mut self) -> Result<u64, Failed> {
        self.desk.len()
    }

    fn read_at(&mut self, at: u64, out: &mut [u8]) -> Result<(), Failed> {
        self.desk.read_at(at, out)
    }

    fn write_at(&mut self, at: u64, bytes: &[u8]) -> Result<(), Failed> {
        self.written = self.written.saturating_add(bytes.len());
        self.desk.write_at(at, bytes)
    }

    fn sync(&mut self) -> Result<(), Failed> {
        self.desk.sync()
    }

    fn say(&mut self, bytes: &[u8]) -> Result<usize, Failed> {
        self.desk.say(bytes)
    }
}

// What a run of one line writes to a file and says of it.
fn run_counted(alloc: Global, store: &[u8], line: &[u8]) -> Result<CountingDesk, Fail> {
    let mut input = MemSource::over(alloc, line, 4_096, &[])?;
    let mut desk = CountingDesk {
        desk: MemDesk::holding(alloc, store, &[])?,
        written: 0,
    };
    if run(alloc, &["run", "s"], &mut input, &mut desk) != Status::Done {
        return Err("a run is not done".into());
    }
    Ok(desk)
}

// An image of a page in the journal and one in its place, and the number of the page.
const A_PAGE: usize = 2_056;

// The header of the journal, and the gate set and cleared.
const A_COMMIT: usize = 18;

#[test]
fn writes_the_pages_that_a_redirect_changes(rt: HostRuntime) -> Result<(), Fail> {
    let alloc = rt.alloc();
    let empty = MemDesk::holding(alloc, &[], &[])?;
    let new = done(alloc, &empty, &["new", "s"], b"")?;
    let typed = done(
        alloc,
        &new,
        &["run", "s"],
        b"visit\thttps://a.example/\t2\t0\n",
    )?;
    let redirect = run_counted(
        alloc,
        typed.bytes(),
        b"visit\thttps://b.example/\t5\t1\t1\n",
    )?;
    assert_eq!(rt;
        redirect.desk.said(),
        b"visit\t2\tpage\t2\tfrecency\t2000\n".as_slice()
    );
    // The pages of the header, of the slots of the first page and its visit, and of the new ones.
    assert_eq!(rt; redirect.written, 3 * A_PAGE + A_COMMIT);
    let page = run_counted(alloc, redirect.desk.bytes(), b"page\thttps://a.example/\n")?;
    let said = b"page\t1\t25\t1\t0\t1\t1\t0\thttps://a.example/\t\t\n";
    assert_eq!(rt; page.desk.said(), said.as_slice());
    assert_eq!(rt; page.written, 0);
    assert_eq!(rt; page.desk.bytes(), redirect.desk.bytes());
    Ok(())
}
