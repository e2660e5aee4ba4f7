//! What is written for symbols (T.81, F.1.2.1), and for values after short runs of zeros (F.1.2.2, Figure F.3).
ghost use Rattle.std.specs.Prelude.{◌≡◌, ◌<◌, ◌≤◌, ◌+◌, ◌*◌, ◌^◌, ◌++◌, ◌-◌, ◌≤ℤ◌, ◌<ℤ◌, pos, negsuc, ◌+ℤ◌, ◌-ℤ◌};
ghost use Rattle.jpg_spec.specs.Bits.{bits_of};
ghost use Rattle.jpg_spec.specs.Numbers.{category as category_of, extra_bits as extra_of};
ghost use Rattle.jpg_spec.specs.Codes.{code_of};
ghost use Rattle.jpg_huff.specs.Tables.{symbol_codes};
ghost use Rattle.std.specs.Option.{option_map};
ghost use Rattle.jpg_huff.specs.Encoder.{AreBases, AreEncodersOf, AreValueEntries, IsValueEntry};
ghost use Rattle.jpg_huff.specs.Sets.{dc_tables, ac_tables, in_slot};

use crate::out::joined;
use crate::{Code, Table, TableSet, category, extra_bits};
use std::marker::Model;

/// A table, and what is written for values after fewer than 16 zeros.
#[derive(Drop)]
pub struct Encoder {
    // the codes
    table: Table,
    // of values from -32 to 31, by 64 times the run, plus the value and 32: the bits
    values: [u32; 1024],
    // by the same: how many bits they are
    counts: [u8; 1024],
    // of all values, by their symbol, plus 256 if they are negative: the bits less the value
    bases: [u32; 512],
    // by the same: how many bits they are
    lengths: [u8; 512],
}

impl Model for Encoder {
    ghost use Rattle.std.specs.Prelude.{List};
    ghost use Rattle.jpg_spec.specs.Codes.{Code};
    ghost use Rattle.jpg_huff.specs.Tables.{symbol_codes};
    ghost use Rattle.jpg_huff.specs.Encoder.{AreBases, AreValueEntries};

    ghost Value = { List Code };

    ghost view = { λ e. symbol_codes e.table };

    ghost invariant = { λ e. AreValueEntries (symbol_codes e.table) e.values e.counts × AreBases (symbol_codes e.table) e.bases e.lengths };
}

// The value plus 32.
#[inline(always)]
fn raised(value: i16) -> usize
    requires small { (negsuc 31 ≤ℤ value) × (value ≤ℤ pos 31) }
    ensures value { pos result ≡ value +ℤ pos 32 }
    ensures few { result < 64 }
{
    (i32::from(value) + 32) as usize
}

// The number minus 32.
fn lowered(number: usize) -> i32
    requires few { number < 64 }
    ensures value { result ≡ pos number -ℤ pos 32 }
    ensures small { (negsuc 31 ≤ℤ result) × (result ≤ℤ pos 31) }
{
    number as i32 - 32
}

// The entry of a value: its bits, and how many they are.
fn value_entry(table: &Table, run: u8, value: i32) -> (u32, u8)
    requires run { run < 16 }
    requires small { (negsuc 31 ≤ℤ value) × (value ≤ℤ pos 31) }
    ensures { IsValueEntry (symbol_codes table.now) run value result.0 result.1 }
{
    let size = category(value);
    let code = table.written(16 * run + size);
    (joined(code, extra_bits(value), size), code.length + size)
}

// Makes the entries of all values where they stay.
#[inline(never)]
fn fill_values(values: &mut [u32; 1024], counts: &mut [u8; 1024], table: &Table)
    ensures { AreValueEntries (symbol_codes table.now) values.new counts.new }
{
    for i in 0..1024usize {
        let (bits, count) = value_entry(table, (i / 64) as u8, lowered(i % 64));
        values[i] = bits;
        counts[i] = count;
    }
}

// What the bits of a value are more than the value: those of the code, with zeros behind them, or for negative values with
// ones (T.81, F.1.2.1).
fn base_of(code: Code, size: u8, sign: u32) -> u32
    requires code { (code.length ≤ 16) × (code.bits < 2 ^ code.length) }
    requires size { size ≤ 15 }
    requires sign { sign ≤ 1 }
    ensures { result ≡ code.bits * 2 ^ size + sign * (2 ^ size - 1) }
{
    joined(code, sign * ((1 << size) - 1), size)
}

// Makes the bases and lengths of all symbols and signs where they stay.
#[inline(never)]
fn fill_bases(bases: &mut [u32; 512], lengths: &mut [u8; 512], table: &Table)
    ensures { AreBases (symbol_codes table.now) bases.new lengths.new }
{
    for i in 0..512usize {
        let size = (i % 16) as u8;
        let code = table.written((i % 256) as u8);
        bases[i] = base_of(code, size, (i / 256) as u32);
        lengths[i] = code.length + size;
    }
}

// The place of values of a symbol and a sign.
#[inline(always)]
fn place_of(symbol: u8, value: i16) -> usize
    ensures few { result < 512 }
    ensures negative { value <ℤ pos 0 → result ≡ 256 + symbol }
    ensures other { pos 0 ≤ℤ value → result ≡ symbol }
{
    if value < 0 {
        256 + symbol as usize
    } else {
        symbol as usize
    }
}

// A base, and a value more.
#[inline(always)]
fn moved(base: u32, value: i16) -> u32
    requires base { base < 2 ^ 31 }
    requires positive { pos 0 ≤ℤ (pos base +ℤ value) }
    ensures { pos result ≡ pos base +ℤ value }
{
    (i64::from(base) + i64::from(value)) as u32
}

impl Encoder {
    /// What is written for a symbol: its first code, or no bits where there is none.
    #[inline(always)]
    pub fn code(&self, symbol: u8) -> Code
        ensures first { bits_of result.length result.bits ≡ code_of self.now symbol }
        ensures fits { (result.length ≤ 16) × (result.bits < 2 ^ result.length) }
    {
        self.table.written(symbol)
    }

    /// What is written for a value from -32 to 31 after fewer than 16 zeros: the first code of its symbol, if any, and
    /// its extra bits (T.81, F.1.2.2). Returns them as a number, and how many bits it has.
    #[inline(always)]
    pub fn value(&self, run: u8, value: i16) -> (u32, u8)
        requires run { run < 16 }
        requires small { (negsuc 31 ≤ℤ value) × (value ≤ℤ pos 31) }
        ensures bits { bits_of result.1 result.0 ≡ code_of self.now (16 * run + category_of value) ++ extra_of value }
        ensures fits { (result.1 ≤ 32) × (result.0 < 2 ^ result.1) }
    {
        let place = 64 * run as usize + raised(value);
        (self.values[place], self.counts[place])
    }

    /// What is written for any value of a category up to 15 after fewer than 16 zeros, and how many bits it has, as by `value`.
    #[inline(always)]
    pub fn any_value(&self, run: u8, value: i16) -> (u32, u8)
        requires run { run < 16 }
        requires short { category_of value ≤ 15 }
        ensures bits { bits_of result.1 result.0 ≡ code_of self.now (16 * run + category_of value) ++ extra_of value }
        ensures fits { (result.1 ≤ 32) × (result.0 < 2 ^ result.1) }
    {
        let symbol = 16 * run + category(i32::from(value));
        let place = place_of(symbol, value);
        (moved(self.bases[place], value), self.lengths[place])
    }
}

// Puts the encoder of a table into a place, if there is one. It is copied once on the way.
#[cold]
#[inline(never)]
fn put_encoder(place: &mut Option<Encoder>, table: Option<&Table>)
    ensures { place.new ≡ option_map symbol_codes (option_map (λ t. t.now) table.entry) }
{
    match table {
        Some(table) => {
            let mut encoder = Encoder {
                table: table.copy(),
                values: [0; 1024],
                counts: [0; 1024],
                bases: [0; 512],
                lengths: [0; 512],
            };
            fill_values(&mut encoder.values, &mut encoder.counts, table);
            fill_bases(&mut encoder.bases, &mut encoder.lengths, table);
            *place = Some(encoder);
        }
        None => *place = None,
    }
}

// Puts the encoders of the AC tables of a set into places.
fn put_encoders(places: &mut [Option<Encoder>; 4], tables: &TableSet)
    ensures { AreEncodersOf tables.now places.new }
{
    for slot in 0..4usize {
        put_encoder(&mut places[slot], tables.ac(slot as u8));
    }
}

/// A place for the encoders of AC tables. They take tens of kilobytes, so they are made where they stay.
#[derive(Drop)]
pub struct EncoderPlaces {
    ac: [Option<Encoder>; 4],
}

impl EncoderPlaces {
    /// No encoders yet.
    pub fn new() -> EncoderPlaces {
        EncoderPlaces {
            ac: [None, None, None, None],
        }
    }

    /// Makes the encoders of the AC tables of a set.
    pub fn fill(&mut self, tables: &TableSet)
        ensures { AreEncodersOf tables.now self.new.ac }
    {
        put_encoders(&mut self.ac, tables);
    }
}

/// The tables of a set, those for AC with what is written for small values.
#[derive(Drop)]
pub struct EncoderSet<'a> {
    tables: &'a TableSet,
    places: &'a EncoderPlaces,
}

impl<'a> Model for EncoderSet<'a> {
    ghost use Rattle.jpg_huff.specs.declared.set.TableSet.{TableSet as Tables};
    ghost use Rattle.jpg_huff.specs.Encoder.{AreEncodersOf};

    ghost Value = { Tables };

    ghost view = { λ e. e.tables.now };

    ghost invariant = { λ e. AreEncodersOf e.tables.now e.places.now.ac };
}

impl<'a> EncoderSet<'a> {
    /// The encoders of the tables of this set, made by `fill`.
    pub fn new(tables: &'a TableSet, places: &'a EncoderPlaces) -> EncoderSet<'a>
        requires { AreEncodersOf tables.now places.now.ac }
        ensures { result ≡ tables.now }
    {
        EncoderSet { tables, places }
    }

    /// The DC table in a slot, None if there is none, and for slots from 4 on.
    #[inline(always)]
    pub fn dc(&self, slot: u8) -> Option<&Table>
        ensures { option_map (λ t. t.now) result ≡ in_slot (dc_tables self.now) slot }
    {
        self.tables.dc(slot)
    }

    /// The encoder of the AC table in a slot, None if there is none, and for slots from 4 on.
    #[inline(always)]
    pub fn ac(&self, slot: u8) -> Option<&Encoder>
        ensures { option_map (λ e. e.now) result ≡ option_map symbol_codes (in_slot (ac_tables self.now) slot) }
    {
        match self.places.ac.get(slot as usize) {
            Some(Some(encoder)) => Some(encoder),
            Some(None) => None,
            None => None,
        }
    }
}
