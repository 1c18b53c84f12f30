ghost use Rattle.std.specs.Prelude.{◌≡◌};
ghost use Rattle.pl_base.specs.Date.{day_number};

/// Microseconds since 1970-01-01T00:00:00Z, leap seconds not counted.
#[derive(Clone, Copy, Debug, PartialEq, Eq, PartialOrd, Ord, Hash)]
pub struct Micros(pub u64);

/// Days since 1970-01-01, in UTC.
#[derive(Clone, Copy, Debug, PartialEq, Eq, PartialOrd, Ord, Hash)]
pub struct Day(pub u32);

/// The microseconds of a second.
pub const MICROS_PER_SECOND: u64 = 1_000_000;

/// The microseconds of a day.
pub const MICROS_PER_DAY: u64 = 86_400_000_000;

impl Micros {
    /// The last microsecond of 9999-12-31.
    pub const LAST: Micros = Micros(253_402_300_799_999_999);

    /// The day of this date.
    pub fn day(self) -> Day
        ensures { result.0 ≡ day_number self }
    {
        Day((self.0 / MICROS_PER_DAY) as u32)
    }
}

impl Day {
    /// 9999-12-31.
    pub const LAST: Day = Day(2_932_896);
}
