ghost use Rattle.std.specs.Prelude.{◌≡◌, ℕ, ◌<◌, ◌≤◌, List, Option, [], ◌++◌, length, take, IfOk};
ghost use Rattle.std.specs.Prelude.{IfSome, OnErr};
ghost use Rattle.std.specs.Option.{option_map};
ghost use Rattle.pl_desk.specs.Counts.{Counts};

use crate::Failed;

/// What the program reads its input from.
pub trait Source {
    /// The bytes that are left, where the source tells its content.
    ghost left: { Self → Option (List ℕ) };

    /// How many reads have failed. The count stands still at its last value, 2^64 - 1.
    ghost faults: { Self → ℕ };

    /// Reads some bytes to the front of `out`, and says how many: none only at the end of the
    /// input.
    fn read(&mut self, out: &mut [u8]) -> Result<usize, Failed>
        requires { 0 < length out.old }
        ensures within { IfOk result (λ n. n ≤ length out.old) }
        ensures taken { IfOk result (λ n.
            left self.old ≡ option_map (λ rest. take n out.new ++ rest) (left self.new)) }
        ensures ended { IfOk result (λ n. n ≡ 0 → IfSome (left self.old) (λ rest. rest ≡ [])) }
        ensures kept { OnErr result (left self.new ≡ left self.old) }
        ensures counted { Counts result (faults self.old) (faults self.new) };
}
