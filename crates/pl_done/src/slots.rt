// When a store would take too many slots.
ghost use Rattle.std.specs.Prelude.{◌≡◌};
ghost use Rattle.pl_step.specs.Step as spec;

/// Whether a store of so many slots after so many before takes more than it may.
pub fn is_full(limit: u32, before: u64, after: u64) -> bool
    ensures { result ≡ spec.is_full limit before after }
{
    after > u64::from(limit) && after > before
}
