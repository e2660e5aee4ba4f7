//! Quantisation tables as they are written (T.81, B.2.4.1, Figure B.6).
ghost use Rattle.std.specs.Prelude.{◌≡◌, ◌≤◌, ◌<◌, ◌+◌, [], ◌∷◌, ◌++◌, length, flat_map, if◌then◌else◌, false, true};
ghost use Rattle.std.specs.Int.{to_be_bytes, w16};
ghost use Rattle.arrayvec.specs.ArrayVec.{array_vec_len};
ghost use Rattle.jpg_huff.specs.BitOut.{CanSend, Sends};
ghost use Rattle.jpg_spec.specs.Lists.{any_of, are_equal};
ghost use Rattle.jpg_spec_write.specs.FileText.{distinct_after, quant_text, slot_in};
ghost use Rattle.jpg_spec_write.specs.Headed.{is_wide};

use super::segment::write_segment;
use arrayvec::ArrayVec;
use jpg_base::codes::DQT;
use jpg_base::{Desk, QuantTable, WriteFault};
use jpg_huff::BitOut;

// Distinct tables, at most one per component.
type Tables = ArrayVec<QuantTable, 4>;

/// The distinct ones of these tables, in the order of their first use.
pub fn distinct_tables(tables: &[QuantTable]) -> Tables
    requires { length tables.now ≤ 4 }
    ensures { result.items ≡ distinct_after [] tables.now }
{
    let mut distinct = Tables::new();
    for table in tables {
        add_new(&mut distinct, table);
    }
    distinct
}

// Adds a table that isn't among them yet.
fn add_new(distinct: &mut Tables, table: &QuantTable)
    requires { array_vec_len distinct.old < 4 }
    ensures value { distinct.new.items ≡ distinct.old.items ++ (if any_of (are_equal table.now) distinct.old.items then [] else table.now ∷ []) }
    ensures few { array_vec_len distinct.new ≤ array_vec_len distinct.old + 1 }
{
    if !holds(distinct.as_slice(), table) {
        distinct.push(*table);
    }
}

fn holds(tables: &[QuantTable], table: &QuantTable) -> bool
    ensures { result ≡ any_of (are_equal table.now) tables.now }
{
    for other in tables {
        if table.is_same(other) {
            return true;
        }
    }
    false
}

/// The index of the table among these, or their number.
pub fn slot_of(tables: &[QuantTable], table: &QuantTable) -> u8
    requires { length tables.now ≤ 4 }
    ensures value { result ≡ slot_in tables.now table.now }
    ensures few { result ≤ 4 }
{
    for (i, other) in tables.iter().enumerate() {
        if other.is_same(table) {
            return i as u8;
        }
    }
    tables.len() as u8
}

/// Writes a DQT segment for each of these tables, with its index among them as its slot.
pub fn write_tables<D: Desk>(
    tables: &[QuantTable],
    out: &mut BitOut,
    desk: &mut D,
) -> Result<(), WriteFault>
    requires can { CanSend (D.state desk.old) out.old }
    requires few { length tables.now ≤ 4 }
    ensures { Sends (D.state desk.old) out.old (flat_map (λ table. quant_text (slot_in tables.now table) table) tables.now) result out.new (D.state desk.new) }
{
    for table in tables {
        write_table(slot_of(tables, table), table, out, desk)?;
    }
    Ok(())
}

// Writes a DQT segment, with entries of two bytes if one exceeds 255 (Pq 1), otherwise of one.
fn write_table<D: Desk>(
    slot: u8,
    table: &QuantTable,
    out: &mut BitOut,
    desk: &mut D,
) -> Result<(), WriteFault>
    requires can { CanSend (D.state desk.old) out.old }
    requires slot { slot ≤ 4 }
    ensures { Sends (D.state desk.old) out.old (quant_text slot table.now) result out.new (D.state desk.new) }
{
    if is_wide(table) {
        write_segment(DQT, wide_contents(slot, table).as_slice(), out, desk)
    } else {
        write_segment(DQT, &narrow_contents(slot, table), out, desk)
    }
}

/// Whether an entry exceeds 255, so that the table's entries have two bytes each (Pq 1, T.81, B.2.4.1) and its file
/// isn't baseline.
pub fn is_wide(table: &QuantTable) -> bool
    ensures { result ≡ is_wide table.now }
{
    table.long();
    for k in 0..64 {
        if table.get(k) > 255 {
            return true;
        }
    }
    false
}

// The slot, and entries of one byte each.
fn narrow_contents(slot: u8, table: &QuantTable) -> [u8; 65]
    requires { is_wide table.now ≡ false }
    ensures { result ≡ slot ∷ table.now }
{
    table.long();
    let mut contents = [slot; 65];
    for k in 0..64 {
        contents[k as usize + 1] = table.get(k) as u8;
    }
    contents
}

// Precision 1 and the slot, and entries of two bytes each.
fn wide_contents(slot: u8, table: &QuantTable) -> ArrayVec<u8, 129>
    requires { slot ≤ 4 }
    ensures value { result.items ≡ (16 + slot) ∷ flat_map (to_be_bytes w16) table.now }
    ensures long { array_vec_len result ≡ 129 }
{
    table.long();
    let mut contents = ArrayVec::new();
    contents.push(16 + slot);
    for k in 0..64 {
        let [high, low] = table.get(k).to_be_bytes();
        contents.push(high);
        contents.push(low);
    }
    contents
}
