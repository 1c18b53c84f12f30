// The parts of URLs.
ghost use Rattle.std.specs.Prelude.{◌≡◌, true, IfOk};
ghost use Rattle.pl_base.specs.Address.{is_store_url};
ghost use Rattle.pl_marks.specs.UrlParts.{HasParts};

use pl_base::NoMemory;
use pl_link::{Canon, CanonError, Parts, split};
use std::alloc::Global;

/// The URL of the store that is this text.
pub fn canon_of(alloc: Global, url: &str) -> Result<Canon, NoMemory>
    requires { is_store_url url.now ≡ true }
    ensures { IfOk result (λ canon. canon ≡ url.now) }
{
    match Canon::read(alloc, url) {
        Ok(canon) => Ok(canon),
        Err(CanonError::NoMemory) => Err(NoMemory),
        Err(CanonError::BadUrl) => unreachable!(),
    }
}

/// The parts of a URL of the store.
pub fn parts_of(alloc: Global, url: &str) -> Result<Parts, NoMemory>
    requires { is_store_url url.now ≡ true }
    ensures { IfOk result (HasParts url.now) }
{
    let canon = canon_of(alloc, url)?;
    split(alloc, &canon)
}
