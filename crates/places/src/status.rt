ghost use Rattle.std.specs.Prelude.{◌≡◌};
ghost use Rattle.places.specs.Status.{status_number, status_value};

use crate::answer_error::AnswerError;
use crate::stop::Stop;
use pl_backup::Fault;
use pl_base::{NoMemory as OutOfMemory, Refusal};
use pl_intake::IntakeError;
use pl_store::Ended;
use pl_task::SCRIPT_LIMIT;
use std::alloc::AllocError;

/// How a run ended.
#[derive(Clone, Copy, Debug, PartialEq, Eq)]
pub enum Status {
    /// Everything was read, answered and said.
    Done,
    /// The words are no form of words that the program knows.
    Usage,
    /// A read failed.
    ReadFault,
    /// Saying failed.
    SayFault,
    /// A call of the store's file failed.
    DeviceFault,
    NoMemory,
    /// The bytes of the file stand for no store.
    NotAStore,
    /// A new store is not written over a file that has so many bytes.
    NotEmpty(u64),
    /// The bytes of the input hold no bookmarks, from this offset on.
    NotBookmarks(u64),
    /// The bytes read reached this limit.
    TooLong(u64),
    /// The import, or the restore, was refused for this reason.
    ImportRefused(Refusal),
    /// The bytes of the input are no backup, for this reason.
    NotBackup(Fault),
}

impl Status {
    /// The exit status of the program.
    pub fn number(&self) -> u8
        ensures { result ≡ status_number self.now }
    {
        match self {
            Status::Done => 0,
            Status::Usage => 2,
            Status::ReadFault => 3,
            Status::SayFault => 4,
            Status::DeviceFault => 5,
            Status::NoMemory => 6,
            Status::NotAStore => 7,
            Status::NotEmpty(_) => 8,
            Status::NotBookmarks(_) => 9,
            Status::TooLong(_) => 10,
            Status::ImportRefused(_) => 11,
            Status::NotBackup(_) => 13,
        }
    }

    /// The number that the status tells besides: of a refusal and a fault its own number.
    pub fn value(&self) -> Option<u64>
        ensures { result ≡ status_value self.now }
    {
        match self {
            Status::NotEmpty(value) | Status::NotBookmarks(value) | Status::TooLong(value) => {
                Some(*value)
            }
            Status::ImportRefused(refusal) => Some(u64::from(refusal.number())),
            Status::NotBackup(fault) => Some(fault.number()),
            Status::Done
            | Status::Usage
            | Status::ReadFault
            | Status::SayFault
            | Status::DeviceFault
            | Status::NoMemory
            | Status::NotAStore => None,
        }
    }
}

impl From<Stop> for Status {
    ghost use Rattle.places.specs.Status.{EndsIn};

    ghost from_gives = { EndsIn };

    fn from(stop: Stop) -> Self {
        match stop {
            Stop::ReadFault => Status::ReadFault,
            Stop::SayFault => Status::SayFault,
            Stop::DeviceFault => Status::DeviceFault,
            Stop::NoMemory => Status::NoMemory,
            Stop::TooLong => Status::TooLong(SCRIPT_LIMIT as u64),
        }
    }
}

impl From<Ended> for Status {
    ghost use Rattle.std.specs.Prelude.{◌≡◌};
    ghost use Rattle.places.specs.Status.{without_session};

    ghost from_gives = { λ ended status. status ≡ without_session ended };

    fn from(ended: Ended) -> Self {
        match ended {
            Ended::DeviceFault => Status::DeviceFault,
            Ended::NoMemory => Status::NoMemory,
            Ended::NotAStore => Status::NotAStore,
            Ended::NotEmpty(len) => Status::NotEmpty(len),
        }
    }
}

impl From<AnswerError> for Status {
    ghost use Rattle.std.specs.Prelude.{◌≡◌};
    ghost use Rattle.places.specs.Status.{answer_status};

    ghost from_gives = { λ error status. status ≡ answer_status error };

    fn from(error: AnswerError) -> Self {
        match error {
            AnswerError::SayFault => Status::SayFault,
            AnswerError::DeviceFault => Status::DeviceFault,
            AnswerError::NoMemory => Status::NoMemory,
        }
    }
}

impl From<IntakeError> for Status {
    ghost use Rattle.std.specs.Prelude.{◌≡◌};
    ghost use Rattle.places.specs.Status.{intake_status};

    ghost from_gives = { λ error status. status ≡ intake_status error };

    fn from(error: IntakeError) -> Self {
        match error {
            IntakeError::NotBookmarks(at) => Status::NotBookmarks(at),
            IntakeError::NotBackup(fault) => Status::NotBackup(fault),
            IntakeError::NoMemory => Status::NoMemory,
        }
    }
}

impl From<OutOfMemory> for Status {
    ghost use Rattle.std.specs.Prelude.{◌≡◌};
    ghost use Rattle.places.specs.declared.status.Status.TheVariants as status;

    ghost from_gives = { λ _ e. e ≡ status.NoMemory };

    fn from(_: OutOfMemory) -> Self {
        Status::NoMemory
    }
}

impl From<AllocError> for Status {
    ghost use Rattle.std.specs.Prelude.{◌≡◌};
    ghost use Rattle.places.specs.declared.status.Status.TheVariants as status;

    ghost from_gives = { λ _ e. e ≡ status.NoMemory };

    fn from(_: AllocError) -> Self {
        Status::NoMemory
    }
}
