// The day of a field: a number, or a date as text.
ghost use Rattle.std.specs.Prelude.{◌≡◌, ◌≤ℤ◌, pos, IfSome};
ghost use Rattle.pl_base.specs.Date.{IsDay, last_day};
ghost use Rattle.pl_script.specs.DayText as spec;

use jiff_fmt::temporal::parse_date;
use pl_base::{Day, all_digits, number};

/// The day of a field that is of its form, and none within where no day of the range has that
/// number or date.
pub fn day(field: &[u8]) -> Option<Option<Day>>
    ensures day { result ≡ spec.day_of field.now }
    ensures range { IfSome result (λ day. IfSome day IsDay) }
{
    if is_date_text(field) {
        return Some(named_day(field));
    }
    Some(day_at(number(field)?))
}

fn is_date_text(field: &[u8]) -> bool
    ensures { result ≡ spec.is_date_text field.now }
{
    field.len() == 10
        && all_digits(&field[..4])
        && field[4] == b'-'
        && all_digits(&field[5..7])
        && field[7] == b'-'
        && all_digits(&field[8..])
}

fn named_day(text: &[u8]) -> Option<Day>
    ensures day { result ≡ spec.named_day text.now }
    ensures range { IfSome result IsDay }
{
    let date = parse_date(text).ok()?;
    day_since(date.to_unix_epoch_day())
}

fn day_since(days: i32) -> Option<Day>
    requires { days ≤ℤ pos last_day }
    ensures day { result ≡ spec.day_since days }
    ensures range { IfSome result IsDay }
{
    Some(Day(u32::try_from(days).ok()?))
}

fn day_at(number: u64) -> Option<Day>
    ensures day { result ≡ spec.day_at number }
    ensures range { IfSome result IsDay }
{
    let day = Day(u32::try_from(number).ok()?);
    if day > Day::LAST {
        return None;
    }
    Some(day)
}
