// Runs that are done and say what is wanted.
use pl_desk::MemDesk;
use std::alloc::Global;
use std::process::Abort;
use std::test::Fail;
use trials_desks::done;

/// What is said of the import of the worked file.
pub const SAID: &[u8] = b"imported\titems\t4\ttags\t2\tskipped\t1\n";

/// A store after what a run of these words makes of it, which ends so and says this.
pub fn goes_on(
    rt: &impl Abort,
    alloc: Global,
    desk: &MemDesk,
    words: &[&str],
    bytes: &[u8],
    said: &[u8],
) -> Result<MemDesk, Fail> {
    let next = done(alloc, desk, words, bytes)?;
    assert_eq!(rt; next.said(), said);
    Ok(next)
}
