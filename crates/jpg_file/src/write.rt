//! Complete files, written (T.81, B.2.1, Figure B.2).
ghost use Rattle.std.specs.Prelude.{◌≡◌, [], true};
ghost use Rattle.jpg_spec.specs.Markers.{eoi};
ghost use Rattle.jpg_huff.specs.BitOut.{CanSend, Sends};
ghost use Rattle.jpg_file.specs.Write.WriteScan.{CanWriteScans, scans_due};
ghost use Rattle.jpg_file.specs.Write.WriteFile.{CanWriteFile, WritesDue, file_bytes};

mod head;
pub mod restart;
pub mod scan;
mod sets;
pub mod sole;
mod tables;

use crate::write::scan::{Given, PlannedScan, write_scan};
use jpg_base::codes::EOI;
use jpg_base::{Desk, WriteFault};
use jpg_coefs::BlockView;
use jpg_huff::BitOut;
use jpg_markers::{KeptList, OutHead, file_head};
use jpg_scans::{Restart, Script};
use jpg_spec_write::Huffman;

/// How a file is written.
#[derive(Drop)]
pub struct Plan {
    /// What its head is written from.
    pub out: OutHead,
    /// The scans that it is written in.
    pub script: Script,
    /// Which Huffman tables they have.
    pub huffman: Huffman,
    /// Where restart markers are in them.
    pub restart: Restart,
}

/// Writes a complete file to the output that was created last: all up to the frame header as `file_head` does; for each
/// entry of the script a DHT segment for each table that it needs and that isn't the last one of its class and slot, a
/// DRI segment if its restart interval isn't the one before, the scan header, and the data of its scan; and EOI (T.81,
/// B.2.1). If fitted tables are asked for, the slots have those that are made for the scan (K.2). Otherwise in a
/// sequential file of precision 8 slot 0 has K.3 and K.5, slot 1 K.4 and K.6; in any other the slots have tables of
/// codes of one length for what the scan writes. Components 2 and 3 of YCbCr and YCCK use slot 1. The blocks are those
/// of the view, whose frame has the same precision and grids. It takes no memory. After WriteFault a first part of the
/// file is written.
pub fn write_file<V: BlockView, D: Desk>(
    plan: &Plan,
    kept: &KeptList,
    view: &V,
    desk: &mut D,
) -> Result<(), WriteFault>
    requires created { (D.state desk.old).output_created ≡ true }
    requires plan { CanWriteFile plan.now kept.now (V.numbers view.now) (V.blocks view.now) }
    ensures { WritesDue (D.state desk.old) (file_bytes plan.now kept.now (V.blocks view.now)) result (D.state desk.new) }
{
    let mut out = BitOut::new();
    file_head(&plan.out, kept, &mut out, desk)?;
    write_scans(plan, view, &mut out, desk)?;
    write_end(&mut out, desk)
}

// Writes all scans of the script.
fn write_scans<V: BlockView, D: Desk>(
    plan: &Plan,
    view: &V,
    out: &mut BitOut,
    desk: &mut D,
) -> Result<(), WriteFault>
    requires can { CanSend (D.state desk.old) out.old }
    requires scans { CanWriteScans plan.now (V.numbers view.now) (V.blocks view.now) }
    ensures { Sends (D.state desk.old) out.old (scans_due plan.now (V.numbers view.now) (V.blocks view.now)) result out.new (D.state desk.new) }
{
    let mut given = Given::new();
    for i in 0..plan.script.len() {
        let entry = plan.script.entry(i);
        let planned = PlannedScan {
            plan,
            entry: &entry,
        };
        write_scan(planned, &mut given, view, out, desk)?;
    }
    Ok(())
}

// Writes EOI, and all that waits.
fn write_end<D: Desk>(out: &mut BitOut, desk: &mut D) -> Result<(), WriteFault>
    requires { CanSend (D.state desk.old) out.old }
    ensures sends { Sends (D.state desk.old) out.old eoi result out.new (D.state desk.new) }
    ensures nothing { out.new.bytes ≡ [] }
{
    out.raw(&[0xff, EOI], desk)?;
    out.flush(desk)
}
