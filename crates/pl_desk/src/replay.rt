ghost use Rattle.std.specs.Prelude.{◌≡◌, ◌+◌, ◌-◌, ◌≤◌, ◌++◌, length, take, drop, replicate, IfOk};
ghost use Rattle.std.specs.Prelude.{OnOk, OnErr, IsOk};
ghost use Rattle.pl_desk.specs.Desk.{overwritten};
ghost use Rattle.pl_desk.specs.MemDesk.{after_deed};
ghost use Rattle.pl_desk.specs.Stopped.{filled_by, closed_by, image_after};
ghost use Rattle.pl_desk.specs.Record.{deed_of, calls_of};

use crate::record::{Deed, Recorded};
use std::alloc::{AllocError, Global};

// Makes the file as long as this with bytes `pad`, if it is shorter.
fn lengthen(file: &mut Vec<u8>, pad: u8, len: usize) -> Result<(), AllocError>
    ensures ok { OnOk result (file.new.items ≡ file.old.items
        ++ replicate (len - length file.old.items) pad) }
    ensures err { OnErr result (file.new.items ≡ file.old.items) }
    ensures within { len ≤ length file.old.items → IsOk result }
{
    if file.len() < len {
        file.resize(len, pad)?;
    }
    Ok(())
}

// Puts these bytes in the place of those at this offset.
fn paste(file: &mut [u8], at: usize, bytes: &[u8])
    requires { at + length bytes.now ≤ length file.old }
    ensures { file.new ≡ take at file.old ++ bytes.now ++ drop (at + length bytes.now) file.old }
{
    file[at..at + bytes.len()].copy_from_slice(bytes);
}

/// Puts these bytes at this offset, and bytes `pad` in a gap before them.
pub(crate) fn overwrite(
    file: &mut Vec<u8>,
    pad: u8,
    at: u64,
    bytes: &[u8],
) -> Result<(), AllocError>
    ensures ok { OnOk result (file.new.items ≡ overwritten pad at bytes.now file.old.items) }
    ensures err { OnErr result (file.new.items ≡ file.old.items) }
    ensures within { at + length bytes.now ≤ length file.old.items → IsOk result }
{
    let at = at as usize;
    let end = at.checked_add(bytes.len()).ok_or(AllocError)?;
    lengthen(file, pad, end)?;
    paste(file, at, bytes);
    Ok(())
}

/// Fills with `filler` what a call wrote, or was to write.
pub(crate) fn fill(
    alloc: Global,
    image: &mut Vec<u8>,
    deed: &Deed,
    filler: u8,
) -> Result<(), AllocError>
    ensures { OnOk result (image.new.items ≡ filled_by filler (deed_of deed.now) image.old.items) }
{
    let (at, len) = match deed {
        Deed::Wrote { at, bytes } => (*at, bytes.len()),
        Deed::Tore { at, len } => (*at, *len),
        Deed::Nothing | Deed::Synced => return Ok(()),
    };
    let bytes = vec![in alloc; filler; len]?;
    overwrite(image, filler, at, &bytes)
}

// Does a recorded call again: to the file, and to its image with `filler` in each byte that a stop
// may change.
fn replay(
    alloc: Global,
    file: &mut Vec<u8>,
    image: &mut Vec<u8>,
    deed: &Deed,
    filler: u8,
) -> Result<(), AllocError>
    ensures file { OnOk result (file.new.items ≡ after_deed (deed_of deed.now) file.old.items) }
    ensures image { OnOk result
        (image.new.items ≡ closed_by filler (deed_of deed.now) file.old.items image.old.items) }
{
    fill(alloc, image, deed, filler)?;
    match deed {
        Deed::Wrote { at, bytes } => overwrite(file, 0, *at, bytes),
        Deed::Synced => {
            *image = Vec::from_slice(alloc, file)?;
            Ok(())
        }
        Deed::Nothing | Deed::Tore { .. } => Ok(()),
    }
}

/// What a stop after these calls leaves of the file, with `filler` in each byte that may hold
/// anything.
pub(crate) fn image_of(
    alloc: Global,
    first: &[u8],
    calls: &[Recorded],
    filler: u8,
) -> Result<Vec<u8>, AllocError>
    ensures { IfOk result (λ image. image.items
        ≡ image_after filler first.now first.now (calls_of calls.now)) }
{
    let mut file = Vec::from_slice(alloc, first)?;
    let mut image = Vec::from_slice(alloc, first)?;
    for call in calls {
        replay(alloc, &mut file, &mut image, &call.deed, filler)?;
    }
    Ok(image)
}
