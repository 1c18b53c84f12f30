// The digest of a text.
ghost use Rattle.std.specs.Prelude.{◌≡◌};
ghost use Rattle.pl_digest.specs.Digest.{digest_of};

use std::hash::{FoldHasher, Hasher};

/// A number of 64 bits that depends on the bytes of the text alone.
///
/// Texts that nobody chose have different ones, but for very few. It has a fixed seed, so texts can
/// be made that all have one: whoever takes texts from a file compares them where digests are the
/// same, and keeps such texts in something that knows no digests.
pub fn digest(text: &str) -> u64
    ensures { result ≡ digest_of text.now }
{
    let mut hasher = FoldHasher::default();
    hasher.write(text.as_bytes());
    hasher.finish()
}
