// The fields of a line, one after another, and the columns at which they stand.
ghost use Rattle.std.specs.Prelude.{◌≡◌, ◌+◌, ◌-◌, ◌<◌, ◌≤◌, [], length, IfOk, IfErr, ◌==◌, IfSome};
ghost use Rattle.std.specs.Option.{ok_or};
ghost use Rattle.std.specs.List.{position, position_or_len};
ghost use Rattle.pl_base.specs.Date.{IsDay};
ghost use Rattle.pl_base.specs.NumberText.{number_32_of};
ghost use Rattle.pl_script.specs.DayText.{day_of};
ghost use Rattle.pl_script.specs.Fields.{GivesField, TakesField};
ghost use Rattle.pl_script.specs.LineError.{ReadsAs, ReadsInPlace};
ghost use Rattle.pl_script.specs.Script as spec;

use crate::lines::LineError;
use crate::word::Word;
use crate::{day, field};
use pl_base::{Day, ItemId, Micros, Refusal, Transition, Txt, VisitId, number_32};
use pl_tree::Place;
use std::alloc::Global;
use std::marker::Model;

/// The length of the longest line that is read, in bytes.
pub const LONGEST_LINE: usize = 262_144;

/// The fields of a line that are left.
#[derive(Drop)]
pub struct Fields<'a> {
    line: &'a [u8],
    /// Where the next field begins: one past the line's end where none is left.
    next: usize,
}

impl<'a> Model for Fields<'a> {
    ghost use Rattle.std.specs.Prelude.{◌+◌, ◌≤◌, length};
    ghost use Rattle.pl_script.specs.Script as spec;
    ghost use Rattle.pl_script.specs.Fields.{fields_from};

    ghost Value = { spec.Fields };

    ghost view = { λ f. fields_from f.line.now f.next };

    ghost invariant = { λ f. (f.next ≤ length f.line.now + 1)
        × (length f.line.now ≤ spec.longest_line) };
}

impl<'a> Fields<'a> {
    pub fn new(line: &'a [u8]) -> Self
        requires { length line.now ≤ spec.longest_line }
        ensures { result ≡ spec.fields_of line.now }
    {
        Fields { line, next: 0 }
    }

    /// The column at which the next field begins, from 1 on.
    fn column(&self) -> u32
        ensures column { result ≡ self.now.column }
        ensures first { 0 < result }
    {
        self.next as u32 + 1
    }

    /// The next field's bytes.
    fn take(&mut self) -> Option<&'a [u8]>
        ensures { GivesField self.old result self.new }
    {
        if self.next > self.line.len() {
            return None;
        }
        let rest = &self.line[self.next..];
        let len = field_len(rest);
        self.next += len + 1;
        Some(&rest[..len])
    }

    // The column and the bytes of the next field. A missing one is refused behind the line's end.
    fn next(&mut self) -> Result<(u32, &'a [u8]), LineError>
        ensures field { IfOk result (λ f.
            TakesField self.old f.1.now self.new × (f.0 ≡ self.old.column)) }
        ensures none { IfErr result (λ e. (self.old.left ≡ [])
            × (e ≡ LineError.Refused (Refusal.BadLine (self.old.column - 1)))) }
    {
        let column = self.column();
        match self.take() {
            Some(bytes) => Ok((column, bytes)),
            None => Err(LineError::Refused(Refusal::BadLine(column - 1))),
        }
    }

    pub fn word(&mut self) -> Result<Word, LineError>
        ensures { ReadsInPlace (λ word. (word, self.new)) result
            (spec.next_field spec.word_of self.old) }
    {
        let (column, bytes) = self.next()?;
        formed(field::word(bytes), column)
    }

    pub fn text(&mut self, alloc: Global) -> Result<Txt, LineError>
        ensures { ReadsAs (λ text. (text, self.new)) result
            (spec.next_field spec.text_of self.old) }
    {
        let (column, bytes) = self.next()?;
        formed(field::text(alloc, bytes)?, column)
    }

    pub fn transition(&mut self) -> Result<Transition, LineError>
        ensures { ReadsInPlace (λ transition. (transition, self.new)) result
            (spec.next_field spec.transition_of self.old) }
    {
        let (column, bytes) = self.next()?;
        formed(field::transition(bytes), column)
    }

    pub fn date(&mut self) -> Result<Micros, LineError>
        ensures { ReadsInPlace (λ date. (date, self.new)) result
            (spec.next_field spec.date_of self.old) }
    {
        let (column, bytes) = self.next()?;
        formed(field::date(bytes), column)
    }

    /// A day, or none where no day of the range has the number or the date.
    pub fn day(&mut self) -> Result<Option<Day>, LineError>
        ensures day { ReadsInPlace (λ day. (day, self.new)) result
            (spec.next_field day_of self.old) }
        ensures range { IfOk result (λ day. IfSome day IsDay) }
    {
        let (column, bytes) = self.next()?;
        formed(day::day(bytes), column)
    }

    pub fn item_id(&mut self) -> Result<ItemId, LineError>
        ensures { ReadsInPlace (λ id. (id, self.new)) result
            (spec.next_field spec.item_id_of self.old) }
    {
        let (column, bytes) = self.next()?;
        formed(field::item_id(bytes), column)
    }

    pub fn place(&mut self) -> Result<Place, LineError>
        ensures { ReadsInPlace (λ place. (place, self.new)) result
            (spec.next_field spec.place_of self.old) }
    {
        let (column, bytes) = self.next()?;
        formed(field::place(bytes), column)
    }

    pub fn visit_id(&mut self) -> Result<VisitId, LineError>
        ensures { ReadsInPlace (λ id. (id, self.new)) result
            (spec.next_field spec.visit_id_of self.old) }
    {
        let (column, bytes) = self.next()?;
        formed(field::visit_id(bytes), column)
    }

    /// A number of at most 32 bits.
    pub fn number(&mut self) -> Result<u32, LineError>
        ensures { ReadsInPlace (λ number. (number, self.new)) result
            (spec.next_field number_32_of self.old) }
    {
        let (column, bytes) = self.next()?;
        formed(number_32(bytes), column)
    }

    /// How many pages the address bar is asked for.
    pub fn max(&mut self) -> Result<u32, LineError>
        ensures { ReadsInPlace (λ most. (most, self.new)) result
            (spec.next_field spec.max_of self.old) }
    {
        let (column, bytes) = self.next()?;
        formed(field::max(bytes), column)
    }

    /// The visit that the last field names, which the line may lack.
    pub fn last_visit_id(&mut self) -> Result<Option<VisitId>, LineError>
        ensures { ReadsInPlace (λ id. (id, self.new)) result
            (spec.last_field spec.visit_id_of self.old) }
    {
        let column = self.column();
        match self.take() {
            None => Ok(None),
            Some(bytes) => Ok(Some(formed(field::visit_id(bytes), column)?)),
        }
    }

    /// A field too many is refused at its column.
    pub fn end(mut self) -> Result<(), LineError>
        ensures { ReadsInPlace (λ end. end) result (spec.no_more_fields self.entry) }
    {
        let column = self.column();
        match self.take() {
            None => Ok(()),
            Some(_) => Err(LineError::Refused(Refusal::BadLine(column))),
        }
    }
}

// The value of a field that is of its form, or the refusal of the line at the field's column.
fn formed<T>(value: Option<T>, column: u32) -> Result<T, LineError>
    ensures { result ≡ ok_or value (LineError.Refused (Refusal.BadLine column)) }
{
    match value {
        Some(value) => Ok(value),
        None => Err(LineError::Refused(Refusal::BadLine(column))),
    }
}

// How many bytes stand before the first TAB.
fn field_len(bytes: &[u8]) -> usize
    ensures exact { result ≡ position_or_len (λ b. b == 9) bytes.now }
    ensures within { result ≤ length bytes.now }
{
    match first_tab(bytes) {
        Some(len) => len,
        None => bytes.len(),
    }
}

fn first_tab(bytes: &[u8]) -> Option<usize>
    ensures { result ≡ position (λ b. b == 9) bytes.now }
{
    bytes.iter().position(|byte| *byte == b'\t')
}
