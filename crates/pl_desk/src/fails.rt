ghost use Rattle.std.specs.Prelude.{◌↔◌, IsTrue, Contains};

/// Whether the call with this number is one of those that are to fail.
pub(crate) fn is_to_fail(fails: &[u32], call: u64) -> bool
    ensures { IsTrue result ↔ Contains fails.now call }
{
    fails.iter().any(|&number| u64::from(number) == call)
}
