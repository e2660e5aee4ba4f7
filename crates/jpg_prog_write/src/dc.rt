//! DC values of a progressive scan, put unit by unit (T.81, F.1.2.1, G.1.2.1).
ghost use Rattle.std.specs.Prelude.{◌≡◌, ◌≤◌, ◌≤ℤ◌, ◌++◌, true, pos, negsuc, ◌-ℤ◌};
ghost use Rattle.jpg_spec.specs.Numbers.{category as category_of, extra_bits as extra_of};
ghost use Rattle.jpg_spec.specs.Codes.{code_of};
ghost use Rattle.jpg_huff.specs.BitOut.{Puts};
ghost use Rattle.jpg_coefs.specs.BitSinks.{bit_kind};
ghost use Rattle.jpg_prog_write.specs.Written.{codes_in};
ghost use Rattle.jpg_prog_write.specs.ScanSinks.{dc_units, unit_bits};

use crate::numbers::{is_odd, shifted};
use crate::put::{dc_code, put_bit};
use jpg_base::{Desk, ScanHead, WriteFault};
use jpg_coefs::{GivenUnit, UnitSink, end_interval, part_of};
use jpg_huff::{BitOut, ExtendedCode, TableSet, category, extra_bits};

#[inline(always)]
pub(crate) fn difference(value: i16, prediction: i16) -> i32
    ensures value { result ≡ value -ℤ prediction }
    ensures within { (negsuc 65534 ≤ℤ result) × (result ≤ℤ pos 65535) }
{
    i32::from(value) - i32::from(prediction)
}

// Writes a difference, by the DC table in a slot.
#[inline(always)]
fn put_difference<D: Desk>(
    tables: &TableSet,
    slot: u8,
    value: i32,
    out: &mut BitOut,
    desk: &mut D,
) -> Result<(), WriteFault>
    requires created { (D.state desk.old).output_created ≡ true }
    requires short { category_of value ≤ 16 }
    ensures { Puts (D.state desk.old) out.old (code_of (codes_in tables.now 0 slot) (category_of value) ++ extra_of value) result out.new (D.state desk.new) }
{
    let size = category(value);
    let code = dc_code(tables, slot, size);
    let extra = extra_bits(value);
    out.put_code(ExtendedCode { code, extra, size }, desk)
}

// Writes the DC value of a unit.
#[inline(always)]
fn put_unit<D: Desk>(
    units: &DcUnits<'_>,
    unit: GivenUnit<'_>,
    out: &mut BitOut,
    desk: &mut D,
) -> Result<(), WriteFault>
    requires created { (D.state desk.old).output_created ≡ true }
    requires bits { units.now.head.now.al ≤ 13 }
    ensures { Puts (D.state desk.old) out.old (unit_bits units.now unit.entry) result out.new (D.state desk.new) }
{
    let head = units.head;
    let value = shifted(unit.block.get(0), head.al);
    if head.ah > 0 {
        put_bit(is_odd(value), out, desk)
    } else {
        let part = part_of(head, unit.component);
        let prediction = shifted(unit.last, head.al);
        let change = difference(value, prediction);
        put_difference(units.tables, part.dc, change, out, desk)
    }
}

/// What writes the DC values of a scan.
#[derive(Drop)]
pub(crate) struct DcUnits<'a> {
    pub(crate) head: &'a ScanHead,
    pub(crate) tables: &'a TableSet,
}

impl<'a, D: Desk> UnitSink<BitOut, D> for DcUnits<'a> {
    ghost kind = { bit_kind dc_units D.state };

    #[inline(always)]
    fn unit(
        &mut self,
        unit: GivenUnit<'_>,
        out: &mut BitOut,
        desk: &mut D,
    ) -> Result<(), WriteFault> {
        put_unit(self, unit, out, desk)
    }

    fn end(
        &mut self,
        marker: Option<u8>,
        out: &mut BitOut,
        desk: &mut D,
    ) -> Result<(), WriteFault> {
        end_interval(marker, out, desk)
    }
}
