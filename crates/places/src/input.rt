// The input in pieces.
ghost use Rattle.std.specs.Prelude.{◌≡◌, ◌≤◌, ◌<◌, ◌⊎◌, [], ◌++◌, length, IfOk, IfErr, IfSome};
ghost use Rattle.std.specs.Prelude.{OnErr};
ghost use Rattle.std.specs.Option.{option_map};
ghost use Rattle.pl_desk.specs.Counts.{CountsAt};

use crate::stop::Stop;
use pl_desk::Source;
use std::alloc::Global;

/// The bytes that are asked for at a time.
pub const PIECE: usize = 65_536;

/// The next piece of the input, of at most so many bytes, and empty at its end.
pub fn next_piece<S: Source>(alloc: Global, input: &mut S, room: usize) -> Result<Vec<u8>, Stop>
    requires { 0 < room }
    ensures taken { IfOk result (λ piece.
        S.left input.old ≡ option_map (λ rest. piece.items ++ rest) (S.left input.new)) }
    ensures within { IfOk result (λ piece. length piece.items ≤ room) }
    ensures ended { IfOk result (λ piece.
        length piece.items ≡ 0 → IfSome (S.left input.old) (λ rest. rest ≡ [])) }
    ensures kept { OnErr result (S.left input.new ≡ S.left input.old) }
    ensures counted { CountsAt (result ≡ Err Stop.ReadFault) (S.faults input.old)
        (S.faults input.new) }
    ensures errors { IfErr result (λ stop. (stop ≡ Stop.ReadFault) ⊎ (stop ≡ Stop.NoMemory)) }
{
    let mut piece = vec![in alloc; 0u8; room]?;
    let Ok(count) = input.read(&mut piece) else {
        return Err(Stop::ReadFault);
    };
    piece.truncate(count);
    Ok(piece)
}
