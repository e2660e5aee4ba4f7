//! Marker segments as they are written (T.81, B.1.1.4).
ghost use Rattle.std.specs.Prelude.{◌≡◌, ◌≤◌, [], length, true};
ghost use Rattle.jpg_huff.specs.BitOut.{CanSend, Sends};
ghost use Rattle.jpg_spec_write.specs.FileText.{segment_text};

use jpg_base::{Desk, WriteFault};
use jpg_huff::BitOut;

/// Writes a segment: FF and its code, its length, which counts itself, and its contents, at most 65,533 bytes (T.81,
/// B.1.1.4). An output must have been created, and no bits wait. After WriteFault a first part of it is written, and
/// nothing waits.
pub fn write_segment<D: Desk>(
    code: u8,
    contents: &[u8],
    out: &mut BitOut,
    desk: &mut D,
) -> Result<(), WriteFault>
    requires can { CanSend (D.state desk.old) out.old }
    requires fits { length contents.now ≤ 65533 }
    ensures { Sends (D.state desk.old) out.old (segment_text code contents.now) result out.new (D.state desk.new) }
{
    let [high, low] = ((contents.len() + 2) as u16).to_be_bytes();
    out.raw(&[0xff, code, high, low], desk)?;
    out.raw(contents, desk)
}
