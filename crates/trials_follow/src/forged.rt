// URLs that were forged to have one digest, which the changes are drawn from too.
use crate::changes::url;
use crate::tables::{FORGED, FORGED_TOO, PATHS};
use pl_digest::digest;
use std::process::Abort;
use std::test::Fail;

#[test]
fn urls_of_two_hosts_have_one_digest(rt: HostRuntime) -> Result<(), Fail> {
    let alloc = rt.alloc();
    for path in 10..PATHS {
        let one = url(alloc, "https://", FORGED, path)?;
        let other = url(alloc, "https://", FORGED_TOO, path)?;
        assert!(&rt; one != other);
        assert!(&rt; digest(one.as_str()) == digest(other.as_str()));
    }
    Ok(())
}
