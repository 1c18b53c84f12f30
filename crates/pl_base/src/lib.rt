//! What the whole store speaks of: ids, dates, numbers, transitions, texts and refusals, and in
//! `specs/` the definitions of the store, its addresses and its frecencies, after the
//! documentation of Mozilla Places.
#![tactic(auto)]

mod change;
mod check_error;
mod date;
mod fault;
mod id;
mod item;
mod memory;
mod numbers;
mod refusal;
mod row;
mod rows;
mod seq;
mod slots;
mod steps;
mod touched;
mod transition;
mod txt;
mod view;

pub use change::Change;
pub use check_error::CheckError;
pub use date::{Day, MICROS_PER_DAY, MICROS_PER_SECOND, Micros};
pub use fault::DeviceFault;
pub use id::{IdKind, Ids, ItemId, PageId, Slot, VisitId};
pub use item::{ItemKind, ItemRow, TreeItem};
pub use memory::NoMemory;
pub use numbers::{all_digits, number, number_32};
pub use refusal::Refusal;
pub use row::{Mark, OriginRow, VisitRow};
pub use rows::{Rows, SLOT_LIMIT};
pub use seq::Seq;
pub use slots::chunks;
pub use steps::Steps;
pub use touched::{PAGE_SIZE, Touched};
pub use transition::Transition;
pub use txt::{LONGEST_TITLE, Txt, cut_title};
pub use view::View;
