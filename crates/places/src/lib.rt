//! The run of a store of history: what the words ask for, on a source of input and a desk with the
//! store's file and the line that replies are said to.
//!
//! `run` is the one call. The program `places_main` hands it the streams and the file of a process;
//! tests hand it bytes in memory.
#![tactic(auto)]

mod answer;
mod answer_error;
mod backup;
mod drill;
mod export;
mod input;
mod intake;
mod make_store;
mod report;
mod run_script;
mod say;
mod script;
mod script_run;
mod status;
mod stop;

ghost use Rattle.std.specs.Prelude.{◌≡◌, ◌⊎◌, ◌+◌, ℕ, List, Some, None, true};
ghost use Rattle.pl_base.specs.Live.{slot_limit};
ghost use Rattle.pl_desk.specs.Calls.{LeavesFile};
ghost use Rattle.pl_desk.specs.Counts.{CountsAt};
ghost use Rattle.pl_desk.specs.Settling.{ShowsThen};
ghost use Rattle.pl_store.specs.Bounds.{reopening_bytes};
ghost use Rattle.pl_store.specs.Ending.{KeepsFinished, RefusesFile, StandsForNone};
ghost use Rattle.pl_script.specs.Script.{script};
ghost use Rattle.places.specs.Completeness.{NothingFails};
ghost use Rattle.places.specs.Drilling.{EndsDrill, OfDrill, ShowsDrill};
ghost use Rattle.places.specs.Ending.{EndsNew, EndsScript, EndsUnopened, LeavesAtEnd, MayEnd};
ghost use Rattle.places.specs.Ending.{OfRun, OfScript, WritesRead};
ghost use Rattle.places.specs.Exporting.{ComesBack, export_text};
ghost use Rattle.places.specs.Reporting.{EndsReport, OfReport, ShowsReport, stored_backup};
ghost use Rattle.places.specs.Restoring.{BringsBack};
ghost use Rattle.places.specs.Stops.{ShowsAnswered, ShowsRun, ShowsUnopened};
ghost use Rattle.places.specs.TakingIn.{EndsIntake, OfIntake, ShowsIntake};
ghost use Rattle.pl_task.specs.Task.{asked_of, input_limit, opens_store};

use crate::drill::drill_stored;
use crate::intake::intake_stored;
use crate::make_store::make_store;
use crate::report::{Report, report_stored};
use crate::script::{run_stored, try_script};
use pl_desk::{Desk, Source};
use pl_intake::Intake;
use pl_task::Task;
pub use status::Status;
use std::alloc::Global;

/// Runs what the words ask for. `new` writes the store before its first command into the desk's
/// file, and says `new`. `run` runs the script of the input on the store that the file holds, and
/// `try` on a store in memory, of which the desk's file knows nothing; both say the reply to each
/// line as it comes, and the file of `run` holds a command before a byte of its reply is said.
/// `import` puts the bookmark file of the input into the store that the file holds, as one command,
/// and says its reply. `export` says the bookmark file of the store that the file holds, and
/// `backup` its JSON backup. `restore` puts the JSON backup of the input in the place of the
/// bookmarks of the store that the file holds, as `import` does. `drill` runs a line that says the
/// day and so many generated ones, each committed as those of `run` are, and says a summary once
/// the file holds them all. `NoMemory` may come at any place: then nothing of its command was said
/// or is in the file.
pub fn run<S: Source, D: Desk>(alloc: Global, words: &[&str], input: &mut S, desk: &mut D) -> Status
    // Which words may end so. Others are refused, and then nothing is called.
    ensures status { MayEnd (asked_of words.now) result }
    ensures untouched { result ≡ Status.Usage → (input.new ≡ input.old) × (desk.new ≡ desk.old) }

    // Where the source and the desk tell their content: at Done everything was read, and what was
    // said is the text of the replies of the plain machine to the script. A read that fails, and
    // the limit of a script, leave the lines answered that ended within what was read. A line that
    // fails leaves the texts of the first replies to what was read said, and a front of the next; a
    // file that fails and want of memory leave whole texts.
    ensures replies { OfScript S.Source D.Desk (asked_of words.now) input.old desk.old
        (λ is_file start bytes before.
        EndsScript result start bytes before (S.left input.new) (D.said desk.new)) }
    // What the file holds at each status, beside what was said then. The store is the one that a
    // read of the file gives at the start, whichever others a stop might have left: the first sync
    // settles the file. The file of `try` is one that a stop might have left before it.
    ensures ends { OfScript S.Source D.Desk (asked_of words.now) input.old desk.old
        (λ is_file start bytes before.
        LeavesAtEnd D.Desk result is_file desk.old start bytes before (S.left input.new) desk.new) }
    // Of `run` a stop before the end of the first sync shows nothing said, and a file that a stop
    // might have left at the start. Before it no byte is written, and it has ended where the file
    // had no fault. From then on, and of `try` from the start, a stop at any moment, within each
    // call of the desk and within a recovery of the file too, shows the texts of the first replies
    // and a front of the next. The file stands then for the store after as many commands, or after
    // one more, and after that one where a byte of its reply was said.
    ensures stops { OfScript S.Source D.Desk (asked_of words.now) input.old desk.old
        (λ is_file start bytes before.
        ShowsRun D.Desk is_file (result ≡ Status.DeviceFault) desk.old desk.new
        (ShowsUnopened D.Desk desk.old before)
        (ShowsAnswered D.Desk is_file desk.old slot_limit start (script bytes) before)) }

    // Where each entry of what `run` read is a refusal, a visit or of a kind that changes nothing,
    // no more is written than the commits of its accepted visits may write, and what a recovery of
    // the file does at the start. So it is at each status.
    ensures bounded { OfRun S.Source D.Desk (asked_of words.now) input.old desk.old
        (λ file start bytes.
        WritesRead start bytes (S.left input.new)
        (D.written desk.old + reopening_bytes file) (D.written desk.new)) }

    // `new` says its word once the file holds the new store.
    ensures made { asked_of words.now ≡ Some Task.New → EndsNew D.Desk result desk.old desk.new }

    // An import is one command. What was said is its reply, once the file holds the store after it;
    // at any other end but a failed line or file nothing was said, and the file holds the store
    // before. A stop at any moment leaves one of the two, and the one after it where a byte of the
    // reply was said.
    ensures imports { OfIntake S.Source D.Desk Intake.Import (asked_of words.now) input.old desk.old
        (λ start bytes before. EndsIntake D.Desk Intake.Import
        result desk.old start bytes before (S.left input.new) desk.new) }
    ensures import_stops { OfIntake S.Source D.Desk Intake.Import (asked_of words.now)
        input.old desk.old (λ start bytes before.
        ShowsThen D.Desk (result ≡ Status.DeviceFault) desk.old desk.new
        (ShowsUnopened D.Desk desk.old before)
        (ShowsIntake D.Desk Intake.Import start bytes before)) }

    // A restore is one command too, and leaves and shows the same. Done, it brings back the whole
    // tree of a good store from that store's backup, where no node stands too deep.
    ensures restores { OfIntake S.Source D.Desk Intake.Restore (asked_of words.now)
        input.old desk.old (λ start bytes before. EndsIntake D.Desk Intake.Restore
        result desk.old start bytes before (S.left input.new) desk.new) }
    ensures restore_stops { OfIntake S.Source D.Desk Intake.Restore (asked_of words.now)
        input.old desk.old (λ start bytes before.
        ShowsThen D.Desk (result ≡ Status.DeviceFault) desk.old desk.new
        (ShowsUnopened D.Desk desk.old before)
        (ShowsIntake D.Desk Intake.Restore start bytes before)) }
    ensures restore_returns { result ≡ Status.Done
        → OfIntake S.Source D.Desk Intake.Restore (asked_of words.now) input.old desk.old
        (λ start bytes before. BringsBack start bytes) }

    // `export` says the bookmark file of the store, which the file stands for throughout; into a
    // file in which no stop left a change it writes no byte. What it says holds all bookmarks of
    // the store, and brings them into a new one.
    ensures exports { OfReport D.Desk Task.Export (asked_of words.now) desk.old (λ start before.
        EndsReport D.Desk result (export_text start) desk.old start before desk.new) }
    ensures export_stops { OfReport D.Desk Task.Export (asked_of words.now) desk.old
        (λ start before.
        ShowsThen D.Desk (result ≡ Status.DeviceFault) desk.old desk.new
        (ShowsUnopened D.Desk desk.old before)
        (ShowsReport start (export_text start) before)) }
    ensures export_rests { asked_of words.now ≡ Some Task.Export
        → KeepsFinished D.Desk desk.old desk.new }
    ensures export_returns { result ≡ Status.Done
        → OfReport D.Desk Task.Export (asked_of words.now) desk.old
        (λ start before. ComesBack start) }

    // `backup` says the JSON backup of the store, and leaves the file as `export` does.
    ensures backups { OfReport D.Desk Task.Backup (asked_of words.now) desk.old (λ start before.
        EndsReport D.Desk result (stored_backup start) desk.old start before desk.new) }
    ensures backup_stops { OfReport D.Desk Task.Backup (asked_of words.now) desk.old
        (λ start before.
        ShowsThen D.Desk (result ≡ Status.DeviceFault) desk.old desk.new
        (ShowsUnopened D.Desk desk.old before)
        (ShowsReport start (stored_backup start) before)) }
    ensures backup_rests { asked_of words.now ≡ Some Task.Backup
        → KeepsFinished D.Desk desk.old desk.new }

    // A drill runs generated lines, each committed as `run` does, and says nothing until all are in
    // the file. A stop at any moment leaves the store after some of them, and the one after all
    // where a byte of the summary was said.
    ensures drills { OfDrill D.Desk (asked_of words.now) desk.old (λ count seed start before.
        EndsDrill D.Desk result count seed desk.old start before desk.new) }
    ensures drill_stops { OfDrill D.Desk (asked_of words.now) desk.old (λ count seed start before.
        ShowsThen D.Desk (result ≡ Status.DeviceFault) desk.old desk.new
        (ShowsUnopened D.Desk desk.old before)
        (ShowsDrill D.Desk count seed start before)) }

    // A file that stands for no store is refused by each task that opens one, which then reads no
    // input and says nothing, and stands for none afterwards.
    ensures refused { result ≡ Status.NotAStore
        → RefusesFile D.Desk desk.old desk.new × KeepsFinished D.Desk desk.old desk.new }
    ensures not_run { result ≡ Status.NotAStore
        → (input.new ≡ input.old) × (D.said desk.new ≡ D.said desk.old) }
    ensures no_store { (task : Task) → asked_of words.now ≡ Some task → opens_store task ≡ true
        → (file : List ℕ) → D.held desk.old ≡ Some file → StandsForNone file
        → EndsUnopened result × (input.new ≡ input.old) × (D.said desk.new ≡ D.said desk.old) }

    // A task without an input reads none.
    ensures unread { (task : Task) → asked_of words.now ≡ Some task → input_limit task ≡ None
        → input.new ≡ input.old }

    // Each fault has its status, and each such status its cause outside the program: no fault is
    // passed over, nor taken for want of memory.
    ensures reads_counted { CountsAt (result ≡ Status.ReadFault) (S.faults input.old)
        (S.faults input.new) }
    ensures says_counted { CountsAt (result ≡ Status.SayFault)
        (D.line_faults desk.old) (D.line_faults desk.new) }
    ensures device_counted { CountsAt (result ≡ Status.DeviceFault)
        (D.device_faults desk.old) (D.device_faults desk.new) }

    // Where nothing outside fails its task, a run does it, but for want of memory.
    ensures complete { (task : Task) → asked_of words.now ≡ Some task
        → NothingFails S.Source D.Desk task input.old desk.old input.new desk.new
        → (result ≡ Status.Done) ⊎ (result ≡ Status.NoMemory) }

    // `try` leaves the desk's file alone.
    ensures alone { asked_of words.now ≡ Some Task.Try → LeavesFile D.Desk desk.old desk.new }
{
    let Some(task) = Task::of(words) else {
        return Status::Usage;
    };
    match task {
        Task::Try => try_script(alloc, input, desk),
        Task::New => make_store(alloc, desk),
        Task::Run => run_stored(alloc, input, desk),
        Task::Import => intake_stored(alloc, Intake::Import, input, desk),
        Task::Export => report_stored(alloc, Report::Export, desk),
        Task::Backup => report_stored(alloc, Report::Backup, desk),
        Task::Restore => intake_stored(alloc, Intake::Restore, input, desk),
        Task::Drill(count, seed) => drill_stored(alloc, count, seed, desk),
    }
}
