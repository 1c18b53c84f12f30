// A gate that is not set, over any bytes in the rest of page 0.
use super::*;

const GATES: [u8; 4] = [0, 2, 128, 255];

// What fills the rest of the page.
const FILLERS: [u8; 4] = [0, 1, 2, 255];

// The file with another page 0.
fn with_page(alloc: Global, file: &[u8], gate: u8, filler: u8) -> Result<Vec<u8>, AllocError> {
    let mut bytes = Vec::from_slice(alloc, &[gate])?;
    bytes.resize(PAGE_SIZE, filler)?;
    if let Some(pages) = file.get(PAGE_SIZE..) {
        bytes.extend_from_slice(pages)?;
    }
    Ok(bytes)
}

fn expect_gate(rt: &impl Abort, alloc: Global, file: &[u8], gate: u8) -> Result<(), Fail> {
    for filler in FILLERS {
        let bytes = with_page(alloc, file, gate, filler)?;
        expect_opened(rt, alloc, "a gate that is not set", &bytes, OF_SHORT)?;
    }
    Ok(())
}

#[test]
fn a_gate_that_is_not_set_opens(rt: HostRuntime) -> Result<(), Fail> {
    let alloc = rt.alloc();
    let short = short_file(alloc)?;
    for gate in GATES {
        expect_gate(&rt, alloc, short.bytes(), gate)?;
    }
    Ok(())
}
