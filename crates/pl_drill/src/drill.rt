ghost use Rattle.std.specs.Prelude.{◌≡◌, ◌+◌, ◌≤◌, ◌<◌, Some, IfOk, OnOk};
ghost use Rattle.std.specs.String.{string_bytes};
ghost use Rattle.pl_drill.specs.Drill as spec;
ghost use Rattle.pl_drill.specs.Drill.{behind, drill_of, drawn, line_of, next_random, random_after};

use crate::draws::Draws;
use crate::lines::{bar, bookmark, day, expire, tag, title, visit};
use pl_base::{MICROS_PER_DAY, NoMemory, VisitId};
use std::alloc::Global;

/// A drill has no more lines behind its first.
pub const MOST_LINES: u32 = 100_000;

// The day on which each drill begins.
const FIRST_DAY: u32 = 19_000;

// Visits are kept for so many days before the day.
const EXPIRED_AFTER: u32 = 60;

/// What the lines to come depend on.
#[derive(Clone, Copy, Debug)]
pub struct Drill {
    random: u64,
    day: u32,
    // The last visit that a store took.
    last: Option<VisitId>,
}

impl Drill {
    /// Before its first line.
    pub fn of(seed: u64) -> Drill
        ensures { result ≡ drill_of seed }
    {
        Drill {
            random: seed,
            day: FIRST_DAY,
            last: None,
        }
    }

    /// The line of this number, without an LF. The first, of number 0, says the day.
    pub fn line(&mut self, alloc: Global, number: u32) -> Result<String, NoMemory>
        requires days { 60 ≤ self.old.day }
        requires dates { self.old.day + number < 1_000_000 }
        ensures line { IfOk result (λ line. string_bytes line ≡ line_of number self.old) }
        ensures drill { OnOk result (self.new ≡ behind number self.old) }
    {
        if number == 0 {
            return day(alloc, self.day);
        }
        let draws = self.draws();
        let date = u64::from(self.day) * MICROS_PER_DAY + u64::from(number);
        if draws.kind == 12 {
            self.day += 1;
        }
        match draws.kind {
            0..=9 => visit(alloc, &draws, date, self.last),
            10 => bookmark(alloc, &draws, number, date),
            11 => tag(alloc, &draws, date),
            12 => day(alloc, self.day),
            13 => title(alloc, &draws, number),
            14 => expire(alloc, self.day - EXPIRED_AFTER),
            _ => bar(alloc, &draws),
        }
    }

    /// A store took the visit of the last line.
    pub fn take(&mut self, visit: VisitId)
        ensures { self.new ≡ record self.old { last = Some visit } }
    {
        self.last = Some(visit);
    }

    // The four draws of a line.
    fn draws(&mut self) -> Draws
        ensures draws { result ≡ spec.draws self.old.random }
        ensures drill { self.new
            ≡ record self.old { random = random_after 4 self.old.random } }
    {
        Draws {
            kind: self.draw(16),
            host: self.draw(50),
            path: self.draw(200),
            tag: self.draw(9),
        }
    }

    // A number below this one.
    fn draw(&mut self, below: u64) -> u64
        requires { 0 < below }
        ensures drawn { result ≡ drawn below self.new.random }
        ensures drill { self.new ≡ record self.old { random = next_random self.old.random } }
    {
        self.random = self
            .random
            .wrapping_mul(6_364_136_223_846_793_005)
            .wrapping_add(1_442_695_040_888_963_407);
        (self.random >> 33) % below
    }
}
