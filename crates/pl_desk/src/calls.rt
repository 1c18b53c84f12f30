ghost use Rattle.std.specs.Prelude.{◌≡◌, ◌↔◌, ℕ, ◌≤◌, ◌+◌, Ok, OnOk, OnErr, IfOk, IsErr, IsTrue};
ghost use Rattle.std.specs.Prelude.{◌<◌};
ghost use Rattle.pl_desk.specs.Counts.{Rose, last_count, no_calls, after_write, after_device_fault};
ghost use Rattle.pl_desk.specs.Counts.{after_line_fault};

use crate::Failed;
use std::marker::Model;

/// What is counted of the calls of a desk. No count passes 2^64 - 1.
#[derive(Debug, Drop)]
pub struct Calls {
    written: u64,
    device_faults: u64,
    line_faults: u64,
}

impl Model for Calls {
    ghost use Rattle.pl_desk.specs.Counts.{CallCounts};

    ghost Value = { CallCounts };

    ghost view = { λ c. record {
      written = c.written;
      device_faults = c.device_faults;
      line_faults = c.line_faults;
    } };
}

impl Calls {
    pub fn new() -> Calls
        ensures { result ≡ no_calls }
    {
        Calls {
            written: 0,
            device_faults: 0,
            line_faults: 0,
        }
    }

    /// Whether so many bytes more can be counted.
    pub fn has_room(&self, len: usize) -> bool
        ensures { IsTrue result ↔ self.now.written + len ≤ last_count }
    {
        self.written.checked_add(len as u64).is_some()
    }

    /// Counts a call of the file by its answer.
    pub fn count<T: Drop, E: Drop>(&mut self, answer: Result<T, E>) -> Result<T, Failed>
        ensures fails { IsErr result ↔ IsErr answer }
        ensures same { (value : T) → result ≡ Ok value → answer ≡ Ok value }
        ensures after { OnOk result (self.new ≡ self.old) }
        ensures after_failed { OnErr result (self.new ≡ after_device_fault self.old) }
        ensures cause { OnErr result (Rose self.old.device_faults self.new.device_faults) }
        ensures counted { self.old.device_faults ≤ self.new.device_faults }
    {
        match answer {
            Ok(value) => Ok(value),
            Err(_) => {
                self.device_faults = self.device_faults.saturating_add(1);
                Err(Failed)
            }
        }
    }

    /// Counts a write of so many bytes by its answer.
    pub fn count_write<E: Drop>(&mut self, len: usize, answer: Result<(), E>) -> Result<(), Failed>
        requires { self.old.written + len ≤ last_count }
        ensures fails { IsErr result ↔ IsErr answer }
        ensures after { OnOk result (self.new ≡ after_write self.old len) }
        ensures after_failed { OnErr result (self.new ≡ after_device_fault self.old) }
        ensures cause { OnErr result (Rose self.old.device_faults self.new.device_faults) }
        ensures counted { self.old.device_faults ≤ self.new.device_faults }
    {
        self.count(answer)?;
        self.written += len as u64;
        Ok(())
    }

    /// Counts a call of `say` by its answer. Where nothing was taken it has failed too.
    pub fn count_say<E: Drop>(&mut self, answer: Result<usize, E>) -> Result<usize, Failed>
        ensures same { IfOk result (λ n. (0 < n) × (answer ≡ Ok n)) }
        ensures taken { (n : ℕ) → 0 < n → answer ≡ Ok n → result ≡ Ok n }
        ensures after { OnOk result (self.new ≡ self.old) }
        ensures after_failed { OnErr result (self.new ≡ after_line_fault self.old) }
        ensures cause { OnErr result (Rose self.old.line_faults self.new.line_faults) }
        ensures counted { self.old.line_faults ≤ self.new.line_faults }
    {
        match answer {
            Ok(count) if count > 0 => Ok(count),
            _ => {
                self.line_faults = self.line_faults.saturating_add(1);
                Err(Failed)
            }
        }
    }
}
