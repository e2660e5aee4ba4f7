//! The data of a sequential scan, written (T.81, F.1.2.1, F.1.2.2, E.1.4).
ghost use Rattle.std.specs.Prelude.{◌≡◌, true};
ghost use Rattle.jpg_spec.specs.Scan.{part_of as part_in};
ghost use Rattle.jpg_spec_write.specs.WrittenFile.{HasBlocksIn};
ghost use Rattle.jpg_huff.specs.BitOut.{CanSend, Puts, Sends};
ghost use Rattle.jpg_coefs.specs.BitSinks.{bit_kind};
ghost use Rattle.jpg_seq.specs.Reader.{HasTables, IsSeqScan};
ghost use Rattle.jpg_seq.specs.ScanWritten.{IsShort, written_data, given_bits, seq_units};

use crate::write::{BlockCodes, put_block};
use jpg_base::{Desk, ScanHead, WriteFault};
use jpg_coefs::{BlockView, GivenUnit, UnitSink, WrittenScan, end_interval, part_of, put_scan};
use jpg_huff::{BitOut, EncoderPlaces, EncoderSet, TableSet};

// What writes the units of a sequential scan.
#[derive(Drop)]
pub(crate) struct SeqUnits<'a> {
    pub(crate) head: &'a ScanHead,
    pub(crate) encoders: EncoderSet<'a>,
}

// Writes the block of a unit, by the tables of its component.
#[inline(always)]
fn put_unit<D: Desk>(
    units: &SeqUnits<'_>,
    unit: GivenUnit<'_>,
    out: &mut BitOut,
    desk: &mut D,
) -> Result<(), WriteFault>
    requires created { (D.state desk.old).output_created ≡ true }
    requires tables { HasTables units.now.encoders (part_in units.now.head.now unit.component) }
    requires short { IsShort unit.block.now }
    ensures { Puts (D.state desk.old) out.old (given_bits units.now unit.entry) result out.new (D.state desk.new) }
{
    let part = part_of(units.head, unit.component);
    let (Some(dc), Some(ac)) = (units.encoders.dc(part.dc), units.encoders.ac(part.ac)) else {
        return Ok(());
    };
    let codes = BlockCodes {
        dc,
        ac,
        prediction: unit.last,
    };
    put_block(codes, unit.block, out, desk)
}

impl<'a, D: Desk> UnitSink<BitOut, D> for SeqUnits<'a> {
    ghost kind = { bit_kind seq_units D.state };

    #[inline(always)]
    fn unit(
        &mut self,
        unit: GivenUnit<'_>,
        out: &mut BitOut,
        desk: &mut D,
    ) -> Result<(), WriteFault> {
        put_unit(self, unit, out, desk)
    }

    fn end(
        &mut self,
        marker: Option<u8>,
        out: &mut BitOut,
        desk: &mut D,
    ) -> Result<(), WriteFault> {
        end_interval(marker, out, desk)
    }
}

/// Writes the data of a sequential scan of a picture: its units by these tables, with a restart marker after each
/// `interval` MCUs (0: none), each interval padded with ones (T.81, F.1.2 and E.1.4). A padding block has the DC value
/// of the block before it of its component, and no AC values. The header names one to four distinct components of the
/// frame, whose tables are there; a symbol without a code is written as no bits; all values are in the range of the
/// frame's precision; an output is created, and no bits wait, neither before nor afterwards. After a fault a first part
/// of the data is written.
#[inline(never)]
pub fn write_seq_scan<'x, V: BlockView, D: Desk>(
    view: &V,
    head: &'x ScanHead,
    tables: &'x TableSet,
    interval: u16,
    out: &mut BitOut,
    desk: &mut D,
) -> Result<(), WriteFault>
    requires can { CanSend (D.state desk.old) out.old }
    requires scan { IsSeqScan (V.numbers view.now) head.now tables.now }
    requires blocks { HasBlocksIn (V.numbers view.now) (V.blocks view.now) }
    ensures { Sends (D.state desk.old) out.old (written_data (V.numbers view.now) head.now tables.now interval (V.blocks view.now)) result out.new (D.state desk.new) }
{
    let mut places = EncoderPlaces::new();
    places.fill(tables);
    let encoders = EncoderSet::new(tables, &places);
    let mut units = SeqUnits { head, encoders };
    let scan = WrittenScan { head, interval };
    put_scan(view, scan, &mut units, out, desk)
}
