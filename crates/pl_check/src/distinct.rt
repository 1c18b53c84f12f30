// Whether no two of some values are the same.
ghost use Rattle.std.specs.Prelude.{◌≡◌, ◌↔◌, map, IfOk, IsTrue};
ghost use Rattle.pl_check.specs.Tags.{AreDistinct, targets};
ghost use Rattle.pl_digest.specs.Digest.{digest_of};

use pl_base::NoMemory;
use pl_digest::digest;
use std::alloc::Global;

pub fn are_distinct(mut numbers: Vec<u32>) -> bool
    ensures { IsTrue result ↔ AreDistinct numbers.items }
{
    numbers.sort_unstable();
    numbers.is_sorted_by(|a, b| a < b)
}

pub fn are_distinct_hashes(mut hashes: Vec<u64>) -> bool
    ensures { IsTrue result ↔ AreDistinct hashes.items }
{
    hashes.sort_unstable();
    hashes.is_sorted_by(|a, b| a < b)
}

/// Compares byte by byte.
pub fn are_distinct_texts(mut texts: Vec<&str>) -> bool
    ensures { IsTrue result ↔ AreDistinct (targets texts.entry.items) }
{
    texts.sort_unstable_by(|a, b| a.cmp(b));
    texts.is_sorted_by(|a, b| a < b)
}

pub fn hashes(alloc: Global, texts: &[&str]) -> Result<Vec<u64>, NoMemory>
    ensures { IfOk result (λ hashes. hashes.items ≡ map digest_of (targets texts.now)) }
{
    Ok(texts.iter().map(|text| digest(text)).collect(alloc)?)
}
