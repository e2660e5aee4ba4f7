//! The bits of elements, put one after another (T.81, G.1.2).
ghost use Rattle.std.specs.Prelude.{◌≡◌, Bool, List, length, ◌<◌, ◌≤◌, ◌^◌, ◌∷◌, [], Ok, true};
ghost use Rattle.jpg_spec.specs.Bits.{bits_of};
ghost use Rattle.jpg_spec.specs.Elements.{Element};
ghost use Rattle.jpg_spec.specs.Codes.{code_of};
ghost use Rattle.jpg_spec_write.specs.Sending.{ended_bands};
ghost use Rattle.jpg_huff.specs.BitOut.{Puts, PutsAfter};
ghost use Rattle.jpg_prog_write.specs.Items.{spelled, texts};
ghost use Rattle.jpg_prog_write.specs.Bands.{IsReady};
ghost use Rattle.jpg_prog_write.specs.Steps.{PassesValues};
ghost use Rattle.jpg_prog_write.specs.Putting.{IsWritten, PutsBand, PutsValues, ac_codes};
ghost use Rattle.jpg_prog_write.specs.Written.{codes_in};

use crate::bands::{BandPart, Bands, value_from};
use crate::item::Item;
use jpg_base::{Desk, WriteFault};
use jpg_huff::{BitOut, Code, ExtendedCode, PendingBits, TableSet};

/// The codes of AC symbols: those of the table in a slot, none if there is no table.
#[derive(Clone, Copy)]
pub(crate) struct AcCodes<'a> {
    pub(crate) tables: &'a TableSet,
    pub(crate) slot: u8,
}

// An element of a band as it is written: its symbol with extra bits, and its corrections.
#[derive(Clone, Copy)]
struct WrittenElement<'a> {
    item: Item,
    bits: &'a [bool],
}

// What is written for an AC symbol, no bits if there is no table.
#[inline(always)]
fn ac_code(codes: AcCodes<'_>, symbol: u8) -> Code
    ensures first { bits_of result.length result.bits ≡ code_of (ac_codes codes.entry) symbol }
    ensures fits { (result.length ≤ 16) × (result.bits < 2 ^ result.length) }
{
    match codes.tables.ac(codes.slot) {
        Some(table) => table.written(symbol),
        None => Code { length: 0, bits: 0 },
    }
}

// What is written for a symbol by the DC table in a slot, no bits if there is none.
#[inline(always)]
pub(crate) fn dc_code(tables: &TableSet, slot: u8, symbol: u8) -> Code
    ensures first { bits_of result.length result.bits ≡ code_of (codes_in tables.now 0 slot) symbol }
    ensures fits { (result.length ≤ 16) × (result.bits < 2 ^ result.length) }
{
    match tables.dc(slot) {
        Some(table) => table.written(symbol),
        None => Code { length: 0, bits: 0 },
    }
}

// Writes one bit.
#[inline(always)]
pub(crate) fn put_bit<D: Desk>(bit: bool, out: &mut BitOut, desk: &mut D) -> Result<(), WriteFault>
    requires { (D.state desk.old).output_created ≡ true }
    ensures { Puts (D.state desk.old) out.old (bit ∷ []) result out.new (D.state desk.new) }
{
    if bit {
        out.put(1, 1, desk)
    } else {
        out.put(0, 1, desk)
    }
}

// At most 16 bits as a number, the first the most significant.
fn number_of(bits: &[bool]) -> u32
    requires { length bits.now ≤ 16 }
    ensures bits { bits_of (length bits.now) result ≡ bits.now }
    ensures fits { result < 2 ^ length bits.now }
{
    let mut number = 0;
    for bit in bits {
        number = 2 * number + u32::from(*bit);
    }
    number
}

// Writes bits, at most 16 at once, after bits that were handed out.
#[inline(always)]
fn put_bits<D: Desk>(
    bits: &[bool],
    held: PendingBits,
    out: &mut BitOut,
    desk: &mut D,
) -> Result<PendingBits, WriteFault>
    requires created { (D.state desk.old).output_created ≡ true }
    requires none { out.old.bits ≡ [] }
    ensures puts { PutsAfter (D.state desk.old) out.old held bits.now result out.new (D.state desk.new) }
    ensures none { out.new.bits ≡ [] }
{
    let mut after = held;
    let mut from = 0;
    while from < bits.len() {
        let end = (from + 16).min(bits.len());
        let count = (end - from) as u8;
        after = out.put_after(after, number_of(&bits[from..end]), count, desk)?;
        from = end;
    }
    Ok(after)
}

// Writes an element of a band with its corrections after bits that were handed out (T.81, G.1.2.2, G.1.2.3).
#[inline(always)]
fn put_item<D: Desk>(
    codes: AcCodes<'_>,
    element: WrittenElement<'_>,
    held: PendingBits,
    out: &mut BitOut,
    desk: &mut D,
) -> Result<PendingBits, WriteFault>
    requires created { (D.state desk.old).output_created ≡ true }
    requires fits { (element.item.size ≤ 16) × (element.item.extra < 2 ^ element.item.size) }
    requires none { out.old.bits ≡ [] }
    ensures puts { (e : Element) → IsWritten e element.entry → PutsAfter (D.state desk.old) out.old held (spelled (ac_codes codes.entry) e) result out.new (D.state desk.new) }
    ensures none { out.new.bits ≡ [] }
{
    let Item {
        symbol,
        extra,
        size,
    } = element.item;
    let code = ac_code(codes, symbol);
    let after = out.put_code_after(held, ExtendedCode { code, extra, size }, desk)?;
    put_bits(element.bits, after, out, desk)
}

// Writes the values of a band that is begun up to its last newly sent one, if no EOB run waits before them, after bits
// that were handed out.
#[inline(always)]
fn put_values<D: Desk>(
    bands: &mut Bands,
    codes: AcCodes<'_>,
    held: PendingBits,
    out: &mut BitOut,
    desk: &mut D,
) -> Result<PendingBits, WriteFault>
    requires ready { IsReady bands.old }
    requires created { (D.state desk.old).output_created ≡ true }
    requires none { out.old.bits ≡ [] }
    ensures passes { (left : List Bool) → result ≡ Ok left → PassesValues bands.old bands.new }
    ensures created { (D.state desk.new).output_created ≡ true }
    ensures band { bands.new.band ≡ bands.old.band }
    ensures none { out.new.bits ≡ [] }
    ensures puts { PutsValues (D.state desk.old) out.old held (ac_codes codes.entry) bands.old result bands.new out.new (D.state desk.new) }
{
    if bands.bands > 0 {
        return Ok(held);
    }
    let (band, marks, last) = (bands.band, bands.marks, bands.last);
    let mut after = held;
    let mut at = bands.at;
    while at < last {
        let part = BandPart {
            band,
            block: &bands.block,
            marks,
            from: at,
            last,
        };
        match value_from(part, &mut bands.waiting) {
            Some(whole) => {
                let element = WrittenElement {
                    item: whole.item,
                    bits: bands.waiting.as_slice(),
                };
                after = put_item(codes, element, after, out, desk)?;
                bands.waiting.clear();
                at = whole.at;
            }
            None => return Ok(after),
        }
    }
    bands.at = last;
    Ok(after)
}

// Writes all of a band that is begun, except for the EOB run that waits then.
pub(crate) fn put_band<D: Desk>(
    bands: &mut Bands,
    codes: AcCodes<'_>,
    out: &mut BitOut,
    desk: &mut D,
) -> Result<(), WriteFault>
    requires ready { IsReady bands.old }
    requires created { (D.state desk.old).output_created ≡ true }
    ensures ready { (u : Unit {0}) → result ≡ Ok u → IsReady bands.new }
    ensures band { bands.new.band ≡ bands.old.band }
    ensures puts { PutsBand (D.state desk.old) out.old (ac_codes codes.entry) bands.old result bands.new out.new (D.state desk.new) }
{
    let mut held = out.take();
    loop {
        held = put_values(bands, codes, held, out, desk)?;
        match bands.next() {
            Some(item) => {
                let bits = bands.waiting.as_slice();
                held = put_item(codes, WrittenElement { item, bits }, held, out, desk)?;
                bands.clear();
            }
            None => {
                out.give(held);
                return Ok(());
            }
        }
    }
}

// Writes an element of a band with its corrections.
fn put_last<D: Desk>(
    codes: AcCodes<'_>,
    element: WrittenElement<'_>,
    out: &mut BitOut,
    desk: &mut D,
) -> Result<(), WriteFault>
    requires created { (D.state desk.old).output_created ≡ true }
    requires fits { (element.item.size ≤ 16) × (element.item.extra < 2 ^ element.item.size) }
    ensures { (e : Element) → IsWritten e element.entry → Puts (D.state desk.old) out.old (spelled (ac_codes codes.entry) e) result out.new (D.state desk.new) }
{
    let held = out.take();
    match put_item(codes, element, held, out, desk) {
        Ok(held) => {
            out.give(held);
            Ok(())
        }
        Err(fault) => Err(fault),
    }
}

// Writes the EOB run that waits after the last band.
pub(crate) fn put_end<D: Desk>(
    bands: &mut Bands,
    codes: AcCodes<'_>,
    out: &mut BitOut,
    desk: &mut D,
) -> Result<(), WriteFault>
    requires ready { IsReady bands.old }
    requires created { (D.state desk.old).output_created ≡ true }
    ensures { Puts (D.state desk.old) out.old (texts (ac_codes codes.entry) (ended_bands bands.old.bands bands.old.waiting.items)) result out.new (D.state desk.new) }
{
    match bands.end() {
        Some(item) => {
            let bits = bands.waiting.as_slice();
            put_last(codes, WrittenElement { item, bits }, out, desk)
        }
        None => Ok(()),
    }
}
