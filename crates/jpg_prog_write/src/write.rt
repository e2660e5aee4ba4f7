//! The data of a progressive scan, written (T.81, G.1.2, E.1.4).
ghost use Rattle.std.specs.Prelude.{◌≡◌};
ghost use Rattle.jpg_spec_write.specs.WrittenFile.{HasBlocksIn};
ghost use Rattle.jpg_huff.specs.BitOut.{CanSend, Sends};
ghost use Rattle.jpg_prog_write.specs.Written.{IsProgScan, written_data};

use crate::ac::{AcUnits, first_slot, no_bands};
use crate::dc::DcUnits;
use crate::put::AcCodes;
use jpg_base::{Desk, ScanHead, WriteFault};
use jpg_coefs::{BlockView, WrittenScan, put_scan};
use jpg_huff::{BitOut, TableSet};

/// Writes the data of a progressive scan of a picture (T.81, G.1.2 and E.1.4): DC values or a band of one component, in
/// a first pass or refined, by these tables, with a restart marker after each `interval` MCUs (0: none), each interval
/// padded with ones. A padding block has the DC value of the block before it of its component, and no AC values. The
/// header names one to four components of the frame, with a band and bits that are allowed; a symbol without a code is
/// written as no bits; all values are in the frame's bounds; an output is created, and no bits wait, neither
/// before nor afterwards. After a fault a first part of the data is written. It takes no memory.
pub fn write_scan<V: BlockView, D: Desk>(
    view: &V,
    head: &ScanHead,
    tables: &TableSet,
    interval: u16,
    out: &mut BitOut,
    desk: &mut D,
) -> Result<(), WriteFault>
    requires can { CanSend (D.state desk.old) out.old }
    requires scan { IsProgScan (V.numbers view.now) head.now }
    requires blocks { HasBlocksIn (V.numbers view.now) (V.blocks view.now) }
    ensures { Sends (D.state desk.old) out.old (written_data (V.numbers view.now) head.now tables.now interval (V.blocks view.now)) result out.new (D.state desk.new) }
{
    let scan = WrittenScan { head, interval };
    if head.ss > 0 {
        let mut units = AcUnits {
            head,
            codes: AcCodes {
                tables,
                slot: first_slot(head),
            },
            bands: no_bands(head),
        };
        put_scan(view, scan, &mut units, out, desk)
    } else {
        let mut units = DcUnits { head, tables };
        put_scan(view, scan, &mut units, out, desk)
    }
}
