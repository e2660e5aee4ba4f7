//! Quantisation tables, parsed (T.81, B.2.4.1, Figure B.6).
ghost use Rattle.std.specs.Prelude.{◌≡◌, ◌<◌, ◌≤◌, Some, Ok, Err, length, slice_set, drop, IfOk, IfErr};
ghost use Rattle.std.specs.Option.{option_map};
ghost use Rattle.jpg_spec.specs.Lists.{any_of};
ghost use Rattle.jpg_spec.specs.QuantContents.{no_quants, parsed_pairs, quant_in, quant_table_of, parsed_quant, parsed_quants, table_entries, table_size, is_zero_quant};

use byteorder::{BigEndian, ByteOrder};
use jpg_base::QuantTable;
use jpg_spec::Fault;
use std::marker::Model;

/// Four optional quantisation tables, by slots 0 to 3 (T.81, B.2.4.1).
#[derive(Clone, Copy, Debug, PartialEq, Eq)]
pub struct QuantSet {
    tables: [Option<QuantTable>; 4],
}

impl Model for QuantSet {
    ghost use Rattle.jpg_spec.specs.QuantContents.{Slots};

    ghost Value = { Slots };

    ghost view = { λ s. s.tables };

    ghost inverse = { λ tables. record { tables = tables } };
}

impl QuantSet {
    /// A set with no tables.
    pub fn new() -> QuantSet
        ensures { result ≡ no_quants }
    {
        QuantSet {
            tables: [None, None, None, None],
        }
    }

    /// The table in a slot, None if there is none, and for slots from 4 on.
    pub fn get(&self, slot: u8) -> Option<&QuantTable>
        ensures { option_map (λ t. t.now) result ≡ quant_in self.now slot }
    {
        match self.tables.get(slot as usize) {
            Some(Some(table)) => Some(table),
            Some(None) => None,
            None => None,
        }
    }

    // Puts the table into a slot, 0 to 3.
    fn put(&mut self, slot: u8, table: QuantTable)
        requires { slot < 4 }
        ensures { self.new ≡ slice_set self.old slot (Some table) }
    {
        self.tables[slot as usize] = Some(table);
    }
}

/// Puts the tables of a segment's contents into their slots, where a later one replaces an earlier one of its slot, or
/// returns the first fault of the contents and changes no table. Each table is judged in this order: BadQuant (its
/// precision above 1 or its slot above 3), BadLength (the segment ends inside it), BadQuant (a quantiser 0) (T.81,
/// B.2.4.1). It takes no memory.
pub fn read_dqt(contents: &[u8], quants: &mut QuantSet) -> Result<(), Fault>
    ensures accepted { IfOk result (λ _. parsed_quants quants.old contents.now ≡ Ok quants.new) }
    ensures refused { IfErr result (λ fault. parsed_quants quants.old contents.now ≡ Err fault) }
    ensures unchanged { IfErr result (λ _. quants.new ≡ quants.old) }
{
    match all_tables(contents, quants) {
        Ok(set) => {
            *quants = set;
            Ok(())
        }
        Err(fault) => Err(fault),
    }
}

// The slots after all tables of these contents.
fn all_tables(contents: &[u8], quants: &QuantSet) -> Result<QuantSet, Fault>
    ensures { result ≡ parsed_quants quants.now contents.now }
{
    let mut set = *quants;
    let mut rest = contents;
    while let [head, tail @ ..] = rest {
        match with_table(&set, *head, tail) {
            Ok(next) => set = next,
            Err(fault) => return Err(fault),
        }
        rest = behind(*head, tail);
    }
    Ok(set)
}

// The slots after the table that begins with these bytes.
fn with_table(quants: &QuantSet, head: u8, bytes: &[u8]) -> Result<QuantSet, Fault>
    ensures value { result ≡ parsed_quant quants.now head bytes.now }
    ensures long { IfOk result (λ _. table_size head ≤ length bytes.now) }
{
    match table_of(head, bytes) {
        Ok((slot, table)) => {
            let mut set = *quants;
            set.put(slot, table);
            Ok(set)
        }
        Err(fault) => Err(fault),
    }
}

// How many bytes of a table follow the byte of its precision and slot.
fn size_of(head: u8) -> usize
    ensures { result ≡ table_size head }
{
    if head / 16 == 1 { 128 } else { 64 }
}

// The bytes after a table.
fn behind(head: u8, bytes: &[u8]) -> &[u8]
    requires { table_size head ≤ length bytes.now }
    ensures { result.now ≡ drop (table_size head) bytes.now }
{
    &bytes[size_of(head)..]
}

// The slot and the table that begin with these bytes.
#[tactic(auto, unfolding(jpg_spec::specs::QuantContents::quant_table_of))]
fn table_of(head: u8, bytes: &[u8]) -> Result<(u8, QuantTable), Fault>
    ensures value { result ≡ quant_table_of head bytes.now }
    ensures slot { IfOk result (λ x. x.0 < 4) }
    ensures long { IfOk result (λ x. table_size head ≤ length bytes.now) }
{
    if head / 16 > 1 || head % 16 > 3 {
        return Err(Fault::BadQuant);
    }
    if bytes.len() < size_of(head) {
        return Err(Fault::BadLength);
    }
    let table = entries_of(head, bytes);
    if has_zero(&table) {
        return Err(Fault::BadQuant);
    }
    Ok((head % 16, table))
}

// The quantisers, of one byte or of two each.
fn entries_of(head: u8, bytes: &[u8]) -> QuantTable
    requires { table_size head ≤ length bytes.now }
    ensures { result ≡ table_entries head bytes.now }
{
    if head / 16 == 1 {
        from_pairs(&bytes[..128])
    } else {
        from_bytes(&bytes[..64])
    }
}

// Quantisers of one byte each.
fn from_bytes(bytes: &[u8]) -> QuantTable
    requires { length bytes.now ≡ 64 }
    ensures { result ≡ bytes.now }
{
    let mut table = QuantTable::ones();
    for k in 0..64 {
        table.set(k, u16::from(bytes[k as usize]));
    }
    table
}

// Quantisers of two bytes each.
#[tactic(auto, using(crate::proofs::Tables::pair_put, std::proofs::lemmas::Grind::common_steps))]
fn from_pairs(bytes: &[u8]) -> QuantTable
    requires { length bytes.now ≡ 128 }
    ensures { result ≡ parsed_pairs bytes.now }
{
    let mut table = QuantTable::ones();
    for k in 0..64 {
        table.set(k, BigEndian::read_u16(&bytes[2 * k as usize..]));
    }
    table
}

// Whether a quantiser is 0.
fn has_zero(table: &QuantTable) -> bool
    ensures { result ≡ any_of is_zero_quant table.now }
{
    table.long();
    for k in 0..64 {
        if table.get(k) == 0 {
            return true;
        }
    }
    false
}
