// How many slots texts take.
ghost use Rattle.std.specs.Prelude.{◌≡◌};
ghost use Rattle.pl_base.specs.Live as live;

// The bytes of a text that a slot takes.
const CHUNK_SIZE: usize = 120;

/// The slots of a text.
pub fn chunks(text: &str) -> u64
    ensures { result ≡ live.chunks text.now }
{
    text.len().div_ceil(CHUNK_SIZE) as u64
}
