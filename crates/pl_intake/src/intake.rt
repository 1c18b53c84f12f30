ghost use Rattle.std.specs.Prelude.{◌≡◌, ◌<◌, length, IfOk, IfErr};
ghost use Rattle.pl_intake.specs.Intake.{HoldsNone, HoldsTree, intake_of};
ghost use Rattle.pl_nbread.specs.BookmarkFile.{file_limit};
ghost use Rattle.pl_step.specs.Commands.{HasDates};

use crate::error::IntakeError;
use pl_step::Command;
use std::alloc::Global;

/// What is brought into a store.
#[derive(Clone, Copy, Debug)]
pub enum Intake {
    /// The bookmarks of a bookmark file, beside those that are there.
    Import,
    /// The bookmarks of a JSON backup, in place of those that are there.
    Restore,
}

impl Intake {
    /// The command that brings in what the bytes hold. There are fewer of them than
    /// `pl_nbread::FILE_LIMIT`.
    pub fn read(self, alloc: Global, bytes: &[u8]) -> Result<Command, IntakeError>
        requires short { length bytes.now < file_limit }
        ensures command { IfOk result (λ command. command ≡ intake_of self bytes.now) }
        ensures holds { IfOk result (λ _. HoldsTree self bytes.now) }
        ensures dates { IfOk result HasDates }
        ensures none { IfErr result (HoldsNone self bytes.now) }
    {
        match self {
            Intake::Import => Ok(Command::Import(pl_nbread::read(alloc, bytes)?)),
            Intake::Restore => Ok(Command::Restore(pl_backup::read(alloc, bytes)?)),
        }
    }
}
