//! The end of an interval, written (T.81, E.1.4, F.1.2.3).
ghost use Rattle.std.specs.Prelude.{◌≡◌, ◌<◌, true, IfSome};
ghost use Rattle.jpg_coefs.specs.BitSinks.{PutsEnd};

use jpg_base::codes::RST0;
use jpg_base::{Desk, WriteFault};
use jpg_huff::BitOut;

/// Writes the bits that wait, padded with ones, and then the restart marker of this number, 0 to 7, if any. An output
/// is created.
pub fn end_interval<D: Desk>(
    marker: Option<u8>,
    out: &mut BitOut,
    desk: &mut D,
) -> Result<(), WriteFault>
    requires created { (D.state desk.old).output_created ≡ true }
    requires marker { IfSome marker (λ n. n < 8) }
    ensures { PutsEnd marker (D.state desk.old) out.old result out.new (D.state desk.new) }
{
    out.pad(desk)?;
    match marker {
        Some(n) => out.raw(&[0xff, RST0 + n], desk),
        None => Ok(()),
    }
}
