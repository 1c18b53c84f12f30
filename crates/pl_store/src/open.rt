ghost use Rattle.std.specs.Prelude.{◌≡◌, ◌≤◌, ◌+◌, ℕ, List, Err, IfOk, Some};
ghost use Rattle.pl_base.specs.Live.{slot_limit};
ghost use Rattle.pl_base.specs.Store.{Store};
ghost use Rattle.pl_desk.specs.Counts.{CountsAt};
ghost use Rattle.pl_desk.specs.Settling.{Settles};
ghost use Rattle.pl_gate.specs.FileCalls.{CallsFile};
ghost use Rattle.pl_known.specs.Known.{Knows};
ghost use Rattle.pl_store.specs.Bounds.{reopening_bytes};
ghost use Rattle.pl_store.specs.Ending.{KeepsFinished, Makes, Opens, OpensToRead};
ghost use Rattle.pl_store.specs.Ending.{StaysAmong};
ghost use Rattle.pl_store.specs.Session.{LeavesOneOf, Stands, StandsAlike, session_store};

use crate::ended::Ended;
use crate::read::{read_store, settle};
use crate::reader::Reader;
use crate::session::Session;
use crate::start::start;
use crate::write::write_change;
use pl_base::SLOT_LIMIT;
use pl_desk::Desk;
use std::alloc::Global;

/// Writes the store before its first command into an empty file. `NotEmpty` comes just where the
/// file has bytes, and says how many; a file that has bytes is left as it was at each end. A stop
/// within it may leave a file that stands for no store.
pub fn create<D: Desk>(alloc: Global, desk: &mut D) -> Result<Session, Ended>
    ensures ends { Makes D.Desk result desk.old desk.new }
    ensures no_less { D.written desk.old ≤ D.written desk.new }
    ensures calls { CallsFile D.Desk (CountsAt (result ≡ Err Ended.DeviceFault)) desk.old desk.new }
{
    let len = desk.len()?;
    if len > 0 {
        return Err(Ended::NotEmpty(len));
    }
    let (session, touched) = start(alloc, SLOT_LIMIT)?;
    write_change(desk, &touched)?;
    Ok(session)
}

/// Settles the gate of a store's file and reads its store. What lies behind the store's pages is
/// not read. `NotAStore` comes just where the bytes stand for no store.
pub fn open_to_read<D: Desk>(alloc: Global, desk: &mut D) -> Result<Reader, Ended>
    ensures ends { OpensToRead D.Desk result desk.old desk.new }
    ensures finished { KeepsFinished D.Desk desk.old desk.new }
    // Until the first sync ends, before which no byte is written, a stop shows a file that it might
    // have left at first; from then on each one that it shows stands for what the one stood for
    // that a read gave. Where the device had no fault, that sync has ended.
    ensures any_moment { (file : List ℕ) → D.held desk.old ≡ Some file
        → Settles D.Desk (result ≡ Err Ended.DeviceFault) desk.old desk.new (StandsAlike file) }
    // Where each file that a stop might have left stands for one of some stores, so does each later
    // one: an opening may be stopped, and the next one that goes on from there, again and again.
    ensures again { (file : List ℕ) (stores : List Store) → D.held desk.old ≡ Some file
        → LeavesOneOf D.Desk stores desk.old → StaysAmong D.Desk stores desk.old desk.new }
    ensures no_less { D.written desk.old ≤ D.written desk.new }
    // What a recovery of the file writes is the most that is written.
    ensures no_more { (file : List ℕ) → D.held desk.old ≡ Some file
        → D.written desk.new ≤ D.written desk.old + reopening_bytes file }
    ensures calls { CallsFile D.Desk (CountsAt (result ≡ Err Ended.DeviceFault)) desk.old desk.new }
    // Bytes stand for one store, or for none.
    ensures one { (file : List ℕ) (a b : Store) → Stands file a → Stands file b → a ≡ b }
{
    settle(desk)?;
    read_store(alloc, desk)
}

/// Opens a store's file for commands, as `open_to_read` opens it, with a limit to the slots of 128
/// bytes that the store may take.
pub fn reopen<D: Desk>(alloc: Global, desk: &mut D, limit: u32) -> Result<Session, Ended>
    requires { limit ≤ slot_limit }
    ensures ends { Opens D.Desk limit result desk.old desk.new }
    ensures finished { KeepsFinished D.Desk desk.old desk.new }
    // Until the first sync ends, before which no byte is written, a stop shows a file that it might
    // have left at first; from then on each one that it shows stands for what the one stood for
    // that a read gave. Where the device had no fault, that sync has ended.
    ensures any_moment { (file : List ℕ) → D.held desk.old ≡ Some file
        → Settles D.Desk (result ≡ Err Ended.DeviceFault) desk.old desk.new (StandsAlike file) }
    // Where each file that a stop might have left stands for one of some stores, so does each later
    // one: an opening may be stopped, and the next one that goes on from there, again and again.
    ensures again { (file : List ℕ) (stores : List Store) → D.held desk.old ≡ Some file
        → LeavesOneOf D.Desk stores desk.old → StaysAmong D.Desk stores desk.old desk.new }
    ensures no_less { D.written desk.old ≤ D.written desk.new }
    // What a recovery of the file writes is the most that is written.
    ensures no_more { (file : List ℕ) → D.held desk.old ≡ Some file
        → D.written desk.new ≤ D.written desk.old + reopening_bytes file }
    ensures calls { CallsFile D.Desk (CountsAt (result ≡ Err Ended.DeviceFault)) desk.old desk.new }
    // Bytes stand for one store, or for none.
    ensures one { (file : List ℕ) (a b : Store) → Stands file a → Stands file b → a ≡ b }
    // The views in memory are those of the store, and each follower stands for them.
    ensures known { IfOk result (λ session. Knows (session_store session) session.engine.known) }
{
    let reader = open_to_read(alloc, desk)?;
    Ok(reader.session(limit)?)
}
