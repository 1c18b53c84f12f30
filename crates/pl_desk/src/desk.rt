ghost use Rattle.std.specs.Prelude.{◌≡◌, ℕ, ◌+◌, ◌<◌, ◌≤◌, List, Option, Some, None, ◌++◌, length};
ghost use Rattle.std.specs.Prelude.{take, slice_range, IfOk, OnOk, OnErr, IfSome, IsSome};
ghost use Rattle.std.specs.Prelude.{MatchOption, ◌↔◌};
ghost use Rattle.std.specs.Option.{option_map};
ghost use Rattle.pl_desk.specs.Desk.{last_offset, overwritten, Torn, Follows, Only, Shows};
ghost use Rattle.pl_desk.specs.Desk.{ShowsSaying, said_by, Elapses};
ghost use Rattle.pl_desk.specs.Counts.{Counts, Writes};

use crate::Failed;

/// A file, and a line that replies are said to.
///
/// The machine may stop at any moment. Between two syncs each written range, and the part past the
/// old end, may then hold any bytes, and the length is any from the old one to the new one. Bytes
/// outside stay. After a sync that succeeds a stop leaves just what a read gives.
pub trait Desk {
    /// What a read gives, where the desk tells its content.
    ghost held: { Self → Option (List ℕ) };

    /// What was said so far, where the desk tells its content.
    ghost said: { Self → Option (List ℕ) };

    /// How many bytes were written so far.
    ghost written: { Self → ℕ };

    /// How many calls of the file have failed. The count stands still at its last value, 2^64 - 1.
    ghost device_faults: { Self → ℕ };

    /// How many calls of `say` have failed. The count stands still at its last value, 2^64 - 1.
    ghost line_faults: { Self → ℕ };

    /// Which files a stop may leave now.
    ghost may_leave: { Self → List ℕ → Type 0 };

    /// The moment, as a number that doesn't fall.
    ghost moment: { Self → ℕ };

    /// Which files and lines a stop at some moment from that one on might have shown, during a call
    /// or between two.
    ghost shown_since: { Self → ℕ → List ℕ → List ℕ → Type 0 };

    /// The length of the file.
    fn len(&mut self) -> Result<u64, Failed>
        ensures length { IfOk result (λ n. IfSome (held self.old) (λ file. n ≡ length file)) }
        ensures most { IfOk result (λ n. n ≤ last_offset) }

        ensures held { held self.new ≡ held self.old }
        ensures said { said self.new ≡ said self.old }
        ensures written { written self.new ≡ written self.old }
        ensures line { line_faults self.new ≡ line_faults self.old }
        ensures counted { Counts result (device_faults self.old) (device_faults self.new) }

        ensures leaves { (file : List ℕ) → may_leave self.new file → may_leave self.old file }
        ensures time { Elapses (moment self.old) (moment self.new) (shown_since self.old)
            (shown_since self.new)
            (Shows (may_leave self.new) (said self.old)) };

    /// Reads as many bytes from the offset on as `out` has room for. After an `Err`, `out` holds
    /// any bytes.
    fn read_at(&mut self, at: u64, out: &mut [u8]) -> Result<(), Failed>
        requires range { at + length out.old ≤ last_offset }
        requires within { IfSome (held self.old) (λ file. at + length out.old ≤ length file) }
        ensures read { OnOk result (IfSome (held self.old) (λ file.
            out.new ≡ slice_range file at (at + length out.old))) }

        ensures held { held self.new ≡ held self.old }
        ensures said { said self.new ≡ said self.old }
        ensures written { written self.new ≡ written self.old }
        ensures line { line_faults self.new ≡ line_faults self.old }
        ensures counted { Counts result (device_faults self.old) (device_faults self.new) }

        ensures leaves { (file : List ℕ) → may_leave self.new file → may_leave self.old file }
        ensures time { Elapses (moment self.old) (moment self.new) (shown_since self.old)
            (shown_since self.new)
            (Shows (may_leave self.new) (said self.old)) };

    /// Writes over what is there, and past the end, where a gap reads as zero bytes. Until a sync,
    /// a stop may leave any bytes in the range and past the old end, and after an `Err` a read may
    /// give them too.
    fn write_at(&mut self, at: u64, bytes: &[u8]) -> Result<(), Failed>
        requires range { at + length bytes.now ≤ last_offset }
        ensures held { OnOk result
            (held self.new ≡ option_map (overwritten 0 at bytes.now) (held self.old)) }
        ensures torn { OnErr result (MatchOption (held self.old) (held self.new ≡ None) (λ old.
            (new : List ℕ) × (held self.new ≡ Some new) × Torn at (length bytes.now) old new)) }

        ensures written { Writes result (length bytes.now) (written self.old) (written self.new) }

        ensures said { said self.new ≡ said self.old }
        ensures line { line_faults self.new ≡ line_faults self.old }
        ensures counted { Counts result (device_faults self.old) (device_faults self.new) }

        ensures leaves { Follows (Torn at (length bytes.now)) (may_leave self.old)
            (may_leave self.new) }
        ensures time { Elapses (moment self.old) (moment self.new) (shown_since self.old)
            (shown_since self.new)
            (Shows (may_leave self.new) (said self.old)) };

    /// After it, a stop leaves just what a read gives. An `Err` closes nothing.
    fn sync(&mut self) -> Result<(), Failed>
        ensures durable { OnOk result
            (IfSome (held self.old) (λ file. Only file (may_leave self.new))) }

        ensures held { held self.new ≡ held self.old }
        ensures said { said self.new ≡ said self.old }
        ensures written { written self.new ≡ written self.old }
        ensures line { line_faults self.new ≡ line_faults self.old }
        ensures counted { Counts result (device_faults self.old) (device_faults self.new) }

        ensures leaves { (file : List ℕ) → may_leave self.new file → may_leave self.old file }
        ensures time { Elapses (moment self.old) (moment self.new) (shown_since self.old)
            (shown_since self.new)
            (Shows (may_leave self.new) (said self.old)) };

    /// Says some bytes of the front of the piece, at least one, and says how many. A stop within it
    /// may show any front of what it says.
    fn say(&mut self, bytes: &[u8]) -> Result<usize, Failed>
        requires { 0 < length bytes.now }
        ensures within { IfOk result (λ n. (0 < n) × (n ≤ length bytes.now)) }
        ensures said { IfOk result (λ n.
            said self.new ≡ option_map (λ before. before ++ take n bytes.now) (said self.old)) }
        ensures kept { OnErr result (said self.new ≡ said self.old) }

        ensures held { held self.new ≡ held self.old }
        ensures written { written self.new ≡ written self.old }
        ensures device { device_faults self.new ≡ device_faults self.old }
        ensures counted { Counts result (line_faults self.old) (line_faults self.new) }

        ensures leaves { (file : List ℕ) → may_leave self.new file → may_leave self.old file }
        ensures time { Elapses (moment self.old) (moment self.new) (shown_since self.old)
            (shown_since self.new)
            (ShowsSaying (may_leave self.new) (said self.old) bytes.now (said_by result)) };

    /// What a read gives and what was said are told together.
    ghost told_together: { (desk : Self) → IsSome (held desk) ↔ IsSome (said desk) };

    /// This moment is one of those since an earlier one.
    ghost counts_now: { (desk : Self) (t : ℕ) (file line : List ℕ) → t ≤ moment desk
        → may_leave desk file →
        said desk ≡ Some line → shown_since desk t file line };

    /// A stop may always show what a read gives now, and what was said.
    ghost shown_now: { (desk : Self) (t : ℕ) (file line : List ℕ) → t ≤ moment desk
        → held desk ≡ Some file →
        said desk ≡ Some line → shown_since desk t file line };

    /// Since this moment there is no other.
    ghost only_now: { (desk : Self) (line_now file line : List ℕ) → said desk ≡ Some line_now →
        shown_since desk (moment desk) file line → may_leave desk file × (line ≡ line_now) };
}
