// Tasks that say one text of the store of the file, and change nothing.
ghost use Rattle.std.specs.Prelude.{◌≡◌, ℕ, List, Some, IfOk};
ghost use Rattle.pl_base.specs.Store.{Store};
ghost use Rattle.pl_desk.specs.Settling.{ShowsThen};
ghost use Rattle.pl_store.specs.Ending.{KeepsFinished, RefusesFile, StandsForNone};
ghost use Rattle.pl_store.specs.Session.{Stands, reader_store};
ghost use Rattle.places.specs.Ending.{EndsTask, EndsUnopened};
ghost use Rattle.places.specs.Exporting.{ComesBack};
ghost use Rattle.places.specs.Reporting.{EndsReport, ShowsReport, report_text};
ghost use Rattle.places.specs.Stops.{ShowsUnopened};
ghost use Rattle.places.specs.Serving.{CountsFaults};

use crate::backup::backup_text;
use crate::export::export_text;
use crate::say::say_all;
use crate::status::Status;
use pl_base::{NoMemory, Txt};
use pl_desk::Desk;
use pl_store::{Reader, open_to_read};
use pl_task::Task;
use std::alloc::Global;

/// What is said of a store.
#[derive(Clone, Copy)]
pub enum Report {
    /// Its bookmark file.
    Export,
    /// Its JSON backup.
    Backup,
}

/// Says the report of the store that the desk's file stands for. No change is made to the file but
/// that a change which a stop left in it is brought to its end.
pub fn report_stored<D: Desk>(alloc: Global, report: Report, desk: &mut D) -> Status
    ensures export { EndsTask Task.Export result }
    ensures backup { EndsTask Task.Backup result }
    ensures ends { (file : List ℕ) (start : Store) (before : List ℕ) → D.held desk.old ≡ Some file
        → Stands file start → D.said desk.old ≡ Some before
        → EndsReport D.Desk result (report_text report start) desk.old start before desk.new }
    ensures stops { (file : List ℕ) (start : Store) (before : List ℕ) → D.held desk.old ≡ Some file
        → Stands file start → D.said desk.old ≡ Some before
        → ShowsThen D.Desk (result ≡ Status.DeviceFault) desk.old desk.new
        (ShowsUnopened D.Desk desk.old before)
        (ShowsReport start (report_text report start) before) }
    ensures returns { report ≡ Report.Export → result ≡ Status.Done
        → (file : List ℕ) (start : Store) → D.held desk.old ≡ Some file → Stands file start
        → ComesBack start }
    ensures finished { KeepsFinished D.Desk desk.old desk.new }
    ensures refused { result ≡ Status.NotAStore → RefusesFile D.Desk desk.old desk.new }
    ensures not_said { result ≡ Status.NotAStore → D.said desk.new ≡ D.said desk.old }
    ensures no_store { (file : List ℕ) → D.held desk.old ≡ Some file → StandsForNone file
        → EndsUnopened result × (D.said desk.new ≡ D.said desk.old) }
    ensures counted { CountsFaults D.Desk (result ≡ Status.SayFault)
        (result ≡ Status.DeviceFault) desk.old desk.new }
{
    let reader = match open_to_read(alloc, desk) {
        Ok(reader) => reader,
        Err(ended) => return Status::from(ended),
    };
    let text = match text_of(alloc, report, &reader) {
        Ok(text) => text,
        Err(_) => return Status::NoMemory,
    };
    match say_all(desk, text.as_str().as_bytes()) {
        Ok(()) => Status::Done,
        Err(_) => Status::SayFault,
    }
}

// The report of a store that is read.
fn text_of(alloc: Global, report: Report, reader: &Reader) -> Result<Txt, NoMemory>
    ensures text { IfOk result (λ text. text ≡ report_text report (reader_store reader.now)) }
    ensures returns { report ≡ Report.Export
        → IfOk result (λ _. ComesBack (reader_store reader.now)) }
{
    match report {
        Report::Export => export_text(alloc, reader),
        Report::Backup => backup_text(alloc, reader),
    }
}
