// A backup that was written, read as a whole and front by front.
use crate::told::{expect_told, read_file, told};
use pl_backup::text;
use std::test::Fail;

const FILE: &[u8] = b"{\"children\":[{\"guid\":\"menu________\",\"children\":[\
    {\"typeCode\":1,\"title\":\"A \\\"\\u2028\",\"uri\":\"https://a.example/\",\"tags\":\"Red,blue\",\
    \"dateAdded\":5,\"lastModified\":7},{\"typeCode\":2,\"title\":\"F\",\"children\":[\
    {\"typeCode\":3,\"title\":\"s\"},{\"typeCode\":2}]}]},\
    {\"guid\":\"mobile______\",\"children\":[{\"typeCode\":3}]}]}";

const TREE: &str =
    "|m0b[A \"\u{2028}] https://a.example/ +5 ~7 #Red,blue|m0f[F]|m1s[s]|m1f[]|o0s[]";

#[test]
fn fronts_of_a_backup_are_refused(rt: HostRuntime) -> Result<(), Fail> {
    let alloc = rt.alloc();
    let tree = read_file(alloc, FILE).map_err(|_| "refused")?;
    let file = text(alloc, &tree)?;
    let bytes = file.as_str().as_bytes();
    expect_told(&rt, alloc, bytes, TREE)?;
    let (last, fronts) = bytes.split_last().ok_or("no bytes")?;
    assert_eq!(rt; *last, b'\n');
    expect_told(&rt, alloc, fronts, TREE)?;
    for (len, _) in fronts.iter().enumerate() {
        assert_eq!(rt; told(alloc, &fronts[..len])?.as_str(), "refused 1");
    }
    Ok(())
}
