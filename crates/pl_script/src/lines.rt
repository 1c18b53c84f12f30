// One line.
ghost use Rattle.std.specs.Prelude.{◌≡◌, IfOk, IfSome, IsErrOf};
ghost use Rattle.pl_step.specs.Commands.{HasDates};
ghost use Rattle.pl_base.specs.Date.{IsDate, IsDay};
ghost use Rattle.pl_script.specs.DayText as days;
ghost use Rattle.pl_script.specs.LineError.{BecomesLineError, HasTexts, MayHaveTexts};
ghost use Rattle.pl_script.specs.LineError.{ReadsAs, ReadsEntry};
ghost use Rattle.pl_script.specs.LineError.{QueryBecomesLineError, ReadsInPlace};
ghost use Rattle.pl_script.specs.LineError.{TagBecomesLineError};
ghost use Rattle.pl_script.specs.Script as spec;
ghost use Rattle.pl_script.specs.declared.lines.LineError.TheVariants.{Refused};
ghost use Rattle.pl_script.specs.declared.lines.LineError.TheVariants.{NoMemory as OutOfMemory};

use crate::bar_lines::{bar_line, fill_line};
use crate::fields::{Fields, LONGEST_LINE};
use crate::history_lines::{day_line, expire_line, forget_line, trim_line, unvisit_line};
use crate::item_lines::{
    bookmark_line, folder_line, list_line, move_line, remove_line, retitle_line, separator_line,
};
use crate::origin_lines::{origin_line, stats_line};
use crate::query_lines::{place_line, query_line};
use crate::tag_lines::{tag_line, untag_line};
use crate::word::Word;
use pl_base::{Day, Micros, NoMemory, Refusal};
use pl_link::{Canon, CanonError};
use pl_place::QueryError;
use pl_step::Command;
use pl_words::TagError;
use std::alloc::Global;
use thiserror::Error;

/// The column at which a line is refused that is too long.
const BEHIND_LONGEST_LINE: u32 = 262_145;

/// Why a line gives no command.
#[derive(Clone, Copy, Debug, PartialEq, Eq, Error)]
pub enum LineError {
    #[error("refused: {0}")]
    Refused(Refusal),
    #[error("out of memory")]
    NoMemory,
}

impl From<NoMemory> for LineError {
    ghost from_gives = { λ _ e. e ≡ OutOfMemory };

    fn from(_: NoMemory) -> Self {
        LineError::NoMemory
    }
}

impl From<CanonError> for LineError {
    ghost from_gives = { BecomesLineError };

    fn from(error: CanonError) -> Self {
        match error {
            CanonError::BadUrl => LineError::Refused(Refusal::BadUrl),
            CanonError::NoMemory => LineError::NoMemory,
        }
    }
}

impl From<TagError> for LineError {
    ghost from_gives = { TagBecomesLineError };

    fn from(error: TagError) -> Self {
        match error {
            TagError::BadTag => LineError::Refused(Refusal::BadTag),
            TagError::NoMemory => LineError::NoMemory,
        }
    }
}

impl From<QueryError> for LineError {
    ghost from_gives = { QueryBecomesLineError };

    fn from(error: QueryError) -> Self {
        match error {
            QueryError::BadQuery(piece) => LineError::Refused(Refusal::BadQuery(piece)),
            QueryError::NoMemory => LineError::NoMemory,
        }
    }
}

/// The command of a line without its LF, or none where the line is empty or a comment.
pub fn line(alloc: Global, bytes: &[u8]) -> Result<Option<Command>, LineError>
    ensures entry { ReadsEntry result (spec.entry bytes.now) }
    ensures dates { IfOk result (λ command. IfSome command HasDates) }

    // A line wants memory only for its texts.
    ensures no_memory { IsErrOf result LineError.NoMemory → MayHaveTexts bytes.now }
{
    match bytes {
        [] | [b'#', ..] => Ok(None),
        _ => Ok(Some(command_line(alloc, bytes)?)),
    }
}

fn command_line(alloc: Global, bytes: &[u8]) -> Result<Command, LineError>
    ensures command { ReadsAs (λ command. command) result (spec.command_line bytes.now) }
    ensures dates { IfOk result HasDates }
    ensures no_memory { IsErrOf result LineError.NoMemory → MayHaveTexts bytes.now }
{
    if bytes.len() > LONGEST_LINE {
        return Err(LineError::Refused(Refusal::BadLine(BEHIND_LONGEST_LINE)));
    }
    let mut fields = Fields::new(bytes);
    let word = fields.word()?;
    line_of(alloc, word, fields)
}

// The command of a line that begins with the word, from its other fields.
fn line_of(alloc: Global, word: Word, fields: Fields<'_>) -> Result<Command, LineError>
    ensures command { ReadsAs (λ command. command) result (spec.line_of word fields.entry) }
    ensures dates { IfOk result HasDates }
    ensures no_memory { IsErrOf result LineError.NoMemory → HasTexts word }
{
    match word {
        Word::Day => day_line(fields),
        Word::Visit => visit_line(alloc, fields),
        Word::Title => title_line(alloc, fields),
        Word::Page => page_line(alloc, fields),
        Word::Origin => origin_line(alloc, fields),
        Word::Stats => stats_line(fields),
        Word::Unvisit => unvisit_line(fields),
        Word::Forget => forget_line(alloc, fields),
        Word::Expire => expire_line(fields),
        Word::Trim => trim_line(fields),
        Word::Folder => folder_line(alloc, fields),
        Word::Bookmark => bookmark_line(alloc, fields),
        Word::Separator => separator_line(fields),
        Word::Move => move_line(fields),
        Word::Retitle => retitle_line(alloc, fields),
        Word::Remove => remove_line(fields),
        Word::Tag => tag_line(alloc, fields),
        Word::Untag => untag_line(alloc, fields),
        Word::List => list_line(fields),
        Word::Query => query_line(alloc, fields),
        Word::Place => place_line(alloc, fields),
        Word::Bar => bar_line(alloc, fields),
        Word::Fill => fill_line(alloc, fields),
    }
}

fn visit_line(alloc: Global, mut fields: Fields<'_>) -> Result<Command, LineError>
    ensures command { ReadsAs (λ command. command) result (spec.visit_line fields.entry) }
    ensures dates { IfOk result HasDates }
{
    let address = fields.text(alloc)?;
    let transition = fields.transition()?;
    let date = fields.date()?;
    let source = fields.last_visit_id()?;
    fields.end()?;
    let date = in_range(date)?;
    let url = Canon::read(alloc, address.as_str())?;
    Ok(Command::Visit {
        url,
        transition,
        date,
        source,
    })
}

/// The date, unless it is later than the last one.
pub fn in_range(date: Micros) -> Result<Micros, LineError>
    ensures date { ReadsInPlace (λ date. date) result (spec.in_range date) }
    ensures range { IfOk result IsDate }
{
    if date > Micros::LAST {
        return Err(LineError::Refused(Refusal::BadDate));
    }
    Ok(date)
}

/// The day, unless it is none of the range.
pub fn day_in_range(day: Option<Day>) -> Result<Day, LineError>
    requires { IfSome day IsDay }
    ensures day { ReadsInPlace (λ day. day) result (days.day_in_range day) }
    ensures range { IfOk result IsDay }
{
    match day {
        Some(day) => Ok(day),
        None => Err(LineError::Refused(Refusal::BadDate)),
    }
}

fn title_line(alloc: Global, mut fields: Fields<'_>) -> Result<Command, LineError>
    ensures command { ReadsAs (λ command. command) result (spec.title_line fields.entry) }
    ensures dates { IfOk result HasDates }
{
    let address = fields.text(alloc)?;
    let text = fields.text(alloc)?;
    fields.end()?;
    let url = Canon::read(alloc, address.as_str())?;
    Ok(Command::Title { url, text })
}

fn page_line(alloc: Global, mut fields: Fields<'_>) -> Result<Command, LineError>
    ensures command { ReadsAs (λ command. command) result (spec.page_line fields.entry) }
    ensures dates { IfOk result HasDates }
{
    let address = fields.text(alloc)?;
    fields.end()?;
    let url = Canon::read(alloc, address.as_str())?;
    Ok(Command::Page { url })
}
