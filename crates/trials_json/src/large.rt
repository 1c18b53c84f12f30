// Files that nest deep, and the longest one.
use crate::told::expect_told;
use pl_nbread::FILE_LIMIT;
use std::alloc::Global;
use std::test::Fail;

// Arrays in one another, which are the children of a backup.
fn nested(alloc: Global, arrays: usize) -> Result<String, Fail> {
    let mut file = String::from_str(alloc, "{\"children\":")?;
    for _ in 0..arrays {
        file.push('[')?;
    }
    for _ in 0..arrays {
        file.push(']')?;
    }
    file.push('}')?;
    Ok(file)
}

#[test]
fn values_nest_127_deep(rt: HostRuntime) -> Result<(), Fail> {
    let alloc = rt.alloc();
    expect_told(&rt, alloc, nested(alloc, 125)?.as_bytes(), "")?;
    expect_told(&rt, alloc, nested(alloc, 126)?.as_bytes(), "")?;
    expect_told(&rt, alloc, nested(alloc, 127)?.as_bytes(), "refused 1")?;
    expect_told(
        &rt,
        alloc,
        nested(alloc, 1_000_000)?.as_bytes(),
        "refused 1",
    )
}

#[test]
fn the_longest_file_is_read(rt: HostRuntime) -> Result<(), Fail> {
    let alloc = rt.alloc();
    let mut file = Vec::with_capacity(alloc, FILE_LIMIT)?;
    file.extend_from_slice(b"{\"children\":[]}")?;
    file.resize(FILE_LIMIT - 1, b' ')?;
    expect_told(&rt, alloc, &file, "")
}
