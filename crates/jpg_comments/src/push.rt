//! Bytes appended to a list, where memory is asked for only if there are some.
ghost use Rattle.std.specs.Prelude.{◌≡◌, ◌<◌, ◌++◌, OnErr, OnOk, length};

use jpg_base::{Bytes, NoMemory};

/// Appends the piece. At NoMemory it has bytes, and nothing has changed.
pub fn push_some(piece: &[u8], out: &mut Bytes) -> Result<(), NoMemory>
    ensures whole { OnOk result (out.new ≡ out.old ++ piece.now) }
    ensures same { OnErr result (out.new ≡ out.old) }
    ensures some { OnErr result (0 < length piece.now) }
{
    if piece.is_empty() {
        return Ok(());
    }
    out.push_all(piece)
}
