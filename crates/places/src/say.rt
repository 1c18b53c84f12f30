// Saying a whole text.
ghost use Rattle.std.specs.Prelude.{◌≡◌, ℕ, List, Some, ◌<◌, length, take, OnOk, OnErr};
ghost use Rattle.pl_desk.specs.Shown.{ShowsOnly};
ghost use Rattle.pl_desk.specs.Counts.{Counts};
ghost use Rattle.pl_desk.specs.Calls.{LeavesFile};
ghost use Rattle.places.specs.Said.{Says};
ghost use Rattle.places.specs.Stops.{ShowsFront};

use pl_desk::{Desk, Failed};

/// Says all the bytes, each turn at least one. A failure leaves a front of them said.
pub fn say_all<D: Desk>(desk: &mut D, bytes: &[u8]) -> Result<(), Failed>
    ensures whole { OnOk result (Says (D.said desk.old) bytes.now (D.said desk.new)) }
    ensures front { OnErr result ((n : ℕ) × (n < length bytes.now)
        × Says (D.said desk.old) (take n bytes.now) (D.said desk.new)) }
    ensures shows { (before : List ℕ) → D.said desk.old ≡ Some before
        → ShowsOnly D.Desk desk.old desk.new (ShowsFront D.Desk desk.old before bytes.now) }
    ensures counted { Counts result (D.line_faults desk.old) (D.line_faults desk.new) }
    ensures file { LeavesFile D.Desk desk.old desk.new }
{
    let mut said = 0;
    while said < bytes.len() {
        said += desk.say(&bytes[said..])?;
    }
    Ok(())
}
