// A store that is made and run on twice: what the three calls say together, with nothing asked of
// the file but that it was empty, and of the sources and the desk but that they tell their content.
// So no premise of `run` is one that nobody meets.
ghost use Rattle.std.specs.Prelude.{◌≡◌, ℕ, List, [], ◌++◌, Some, Ok};
ghost use Rattle.pl_base.specs.Store.{Store, opening};
ghost use Rattle.pl_base.specs.Live.{slot_limit};
ghost use Rattle.pl_step.specs.Run.{after, replies};
ghost use Rattle.pl_store.specs.Session.{Stands};
ghost use Rattle.pl_script.specs.Script.{script};
ghost use Rattle.places.specs.Ending.{made_text};
ghost use Rattle.places.specs.Said.{texts};
ghost use Rattle.trials_stored.specs.Again.{GoesOn};

use pl_desk::{Desk, MemDesk, MemSource, Source};
use places::{Status, run};
use std::alloc::Global;
use std::process::Abort;
use std::test::Fail;
use trials_desks::in_memory;

// `run` on each source, one after the other.
fn run_on<S: Source, D: Desk>(alloc: Global, first: &mut S, second: &mut S, desk: &mut D) -> Status
    ensures said { result ≡ Status.Done
        → (file : List ℕ) (start : Store) → D.held desk.old ≡ Some file → Stands file start
        → (one two before : List ℕ) → S.left first.old ≡ Some one → S.left second.old ≡ Some two
        → D.said desk.old ≡ Some before
        → D.said desk.new ≡ Some ((before ++ texts (replies slot_limit start (script one)))
        ++ texts (replies slot_limit (after slot_limit start (script one)) (script two))) }
{
    match run(alloc, &["run", "s"], first, desk) {
        Status::Done => run(alloc, &["run", "s"], second, desk),
        ended => ended,
    }
}

// `new`, and then `run` on each source.
fn made_and_run<S: Source, D: Desk>(
    alloc: Global,
    first: &mut S,
    second: &mut S,
    desk: &mut D,
) -> Status
    ensures said { result ≡ Status.Done
        → (one two before : List ℕ) → S.left first.old ≡ Some one → S.left second.old ≡ Some two
        → D.said desk.old ≡ Some before → D.held desk.old ≡ Some []
        → D.said desk.new ≡ Some (((before ++ made_text)
        ++ texts (replies slot_limit opening (script one)))
        ++ texts (replies slot_limit (after slot_limit opening (script one)) (script two))) }
{
    match run(alloc, &["new", "s"], first, desk) {
        Status::Done => run_on(alloc, first, second, desk),
        ended => ended,
    }
}

// `run` on each source, where the file failed in the first run.
fn run_again<S: Source, D: Desk>(
    alloc: Global,
    first: &mut S,
    second: &mut S,
    desk: &mut D,
) -> Result<Status, Status>
    ensures goes_on { result ≡ Ok Status.Done → (start : Store)
        → ((file : List ℕ) → D.may_leave desk.old file → Stands file start)
        → (one two before : List ℕ) → S.left first.old ≡ Some one → S.left second.old ≡ Some two
        → D.said desk.old ≡ Some before
        → GoesOn D.Desk start two before desk.new }
{
    match run(alloc, &["run", "s"], first, desk) {
        Status::DeviceFault => Ok(run(alloc, &["run", "s"], second, desk)),
        ended => Err(ended),
    }
}

// How many calls behind the sync of the set gate a run of one visit ends: the images of the header,
// of the page of the roots and of a new one, a sync, the cleared gate, its sync, and the reply.
const BEHIND_THE_SET_GATE: u32 = 7;

// What two runs of a visit each say on the file of a new store, where this call of the first run
// fails.
fn expect_again(
    rt: &impl Abort,
    alloc: Global,
    store: &[u8],
    call: u32,
    said: &[u8],
) -> Result<(), Fail> {
    let mut first = MemSource::over(alloc, b"visit\thttps://a.example/\t2\t0\n", 7, &[])?;
    let mut second = MemSource::over(alloc, b"visit\thttps://a.example/\t1\t0\n", 7, &[])?;
    let mut desk = MemDesk::holding(alloc, store, &[call])?;
    let ended = run_again(alloc, &mut first, &mut second, &mut desk);
    assert_eq!(rt; ended, Ok(Status::Done));
    assert_eq!(rt; desk.said(), said);
    Ok(())
}

#[test]
fn goes_on_behind_a_fault(rt: HostRuntime) -> Result<(), Fail> {
    let alloc = rt.alloc();
    let mut nothing = MemSource::over(alloc, b"", 7, &[])?;
    let mut made = MemDesk::holding(alloc, &[], &[])?;
    let status = in_memory(alloc, &["new", "s"], &mut nothing, &mut made);
    assert_eq!(rt; status, Status::Done);
    let mut visit = MemSource::over(alloc, b"visit\thttps://a.example/\t2\t0\n", 7, &[])?;
    let mut desk = MemDesk::holding(alloc, made.bytes(), &[])?;
    let status = in_memory(alloc, &["run", "s"], &mut visit, &mut desk);
    assert_eq!(rt; status, Status::Done);
    let calls = desk.calls();
    assert!(rt; calls > BEHIND_THE_SET_GATE);
    // The first sync of the opening, and the one that sets the gate, which leaves the first visit
    // in the file.
    expect_again(
        &rt,
        alloc,
        made.bytes(),
        0,
        b"visit\t1\tpage\t1\tfrecency\t100\n",
    )?;
    let set = calls - 1 - BEHIND_THE_SET_GATE;
    expect_again(
        &rt,
        alloc,
        made.bytes(),
        set,
        b"visit\t2\tpage\t1\tfrecency\t2100\n",
    )?;
    Ok(())
}

#[test]
fn goes_on_where_the_last_run_ended(rt: HostRuntime) -> Result<(), Fail> {
    let alloc = rt.alloc();
    let mut first = MemSource::over(alloc, b"visit\thttps://a.example/\t2\t0\n", 7, &[])?;
    let mut second = MemSource::over(alloc, b"visit\thttps://a.example/\t1\t0\n", 7, &[])?;
    let mut desk = MemDesk::holding(alloc, &[], &[])?;
    assert_eq!(rt;
        made_and_run(alloc, &mut first, &mut second, &mut desk),
        Status::Done
    );
    let said = b"new\nvisit\t1\tpage\t1\tfrecency\t2000\nvisit\t2\tpage\t1\tfrecency\t2100\n";
    assert_eq!(rt; desk.said(), said.as_slice());
    Ok(())
}
