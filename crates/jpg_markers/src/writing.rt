//! What is written of a file before its scans (T.81, B.2.1).
ghost use Rattle.std.specs.Prelude.{◌≡◌, [], length, true};
ghost use Rattle.arrayvec.specs.ArrayVec.{array_vec_len};
ghost use Rattle.jpg_huff.specs.BitOut.{CanSend, Sends};
ghost use Rattle.jpg_spec_write.specs.FileText.{front_text};
ghost use Rattle.jpg_markers.specs.OutHead.{head_meaning};

mod frame;
mod head;
mod markers;
mod quants;
mod segment;

use crate::kept::KeptList;
use frame::write_frame;
pub use head::OutHead;
use jpg_base::codes::SOI;
use jpg_base::{Desk, WriteFault};
use jpg_huff::BitOut;
use markers::write_markers;
pub use quants::is_wide;
use quants::{distinct_tables, write_tables};
pub use segment::write_segment;

/// Writes a file from SOI up to its frame header: SOI; for gray and YCbCr a JFIF header, for RGB, CMYK and YCCK an
/// Adobe segment, for unknown colours neither; the kept markers that are copied, except those that this header
/// replaces; a DQT segment for each distinct quantisation table; and the frame header of the frame's process. Equal
/// tables share a slot, and slots count from 0 by first use. The JFIF header has version 1.01, or that of the input if
/// its major number is 1, and the density of the input, or 1 by 1 without a unit (T.81, B.2.1 to B.2.4, JFIF 1.02). An
/// output must have been created, no bits wait, and there is one table per component of the frame. It takes no memory.
/// After WriteFault a first part of the bytes is written, and nothing waits.
pub fn file_head<D: Desk>(
    head: &OutHead,
    kept: &KeptList,
    out: &mut BitOut,
    desk: &mut D,
) -> Result<(), WriteFault>
    requires can { CanSend (D.state desk.old) out.old }
    requires tables { array_vec_len head.now.quants ≡ length head.now.frame.components }
    ensures { Sends (D.state desk.old) out.old (front_text (head_meaning head.now kept.now)) result out.new (D.state desk.new) }
{
    let tables = distinct_tables(head.quants.as_slice());
    out.raw(&[0xff, SOI], desk)?;
    write_markers(head, kept, out, desk)?;
    write_tables(tables.as_slice(), out, desk)?;
    write_frame(head, tables.as_slice(), out, desk)
}
