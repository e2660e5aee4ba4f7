//! A table from its counts and symbols (T.81, C.2): the arrays of a table are built here.
ghost use Rattle.std.specs.Prelude.{◌≡◌, ◌<◌, ◌≤◌, ◌+◌, ◌^◌, true, false, IfSome, IfNone, [], ◌∷◌, length, sum, take, replicate};
ghost use Rattle.jpg_spec.specs.Bits.{bits_of};
ghost use Rattle.jpg_spec.specs.Codes.{are_codes, codes, codes_at};
ghost use Rattle.jpg_huff.specs.Index.{IsEncoder};
ghost use Rattle.jpg_huff.specs.New.{IsNewTable, IsTotal, AreRight, AreFirsts, AreStarts, AreCodeLimits, AreEntries, HaveFirstCodes, table_from};
ghost use Rattle.jpg_huff.specs.Tables.{table_of};

use crate::Table;

/// Why there is no table (T.81, B.2.4.2 and Annex C).
#[derive(Clone, Copy, Debug, PartialEq, Eq)]
pub enum TableFault {
    /// The counts add up to more than 256.
    TooManyCodes,
    /// There are fewer values than codes.
    ShortValues,
    /// A code doesn't fit its length, or is all ones.
    OverfullCodes,
}

impl Table {
    /// The table with these counts of codes by length, from 1 to 16, for the first of the values in their order (T.81,
    /// B.2.4.2 and Annex C). Later values are ignored. A symbol may occur twice, and a table may have no codes. Of
    /// several faults it returns the first in the order of the variants.
    pub fn new(bits: &[u8; 16], values: &[u8]) -> Result<Table, TableFault>
        ensures { IsNewTable bits.now values.now result }
    {
        match judged_total(bits, values) {
            Ok(_) => Ok(Table::of_right(bits, values)),
            Err(fault) => Err(fault),
        }
    }

    // The table with these counts, for the first of the values, where both are right.
    pub(crate) fn of_right(bits: &[u8; 16], values: &[u8]) -> Table
        requires { AreRight bits.now values.now }
        ensures { table_of result ≡ table_from bits.now values.now }
    {
        let Some(firsts) = number_firsts(bits) else {
            unreachable!();
        };
        let total = count_all(bits);
        let symbols = keep_symbols(&values[..total as usize]);
        let starts = count_shorter(bits);
        Table {
            counts: *bits,
            symbols,
            total,
            firsts,
            starts,
            limits: find_limits(bits, &firsts),
            encoder: encode(bits, &symbols, &firsts, &starts),
        }
    }
}

/// How many codes a table with these counts has, for the first of the values; the fault of `Table::new` where there is
/// no such table (T.81, B.2.4.2 and Annex C).
pub fn judged_total(bits: &[u8; 16], values: &[u8]) -> Result<u16, TableFault>
    ensures { IsTotal bits.now values.now result }
{
    let total = count_all(bits);
    if total > 256 {
        return Err(TableFault::TooManyCodes);
    }
    if values.len() < total as usize {
        return Err(TableFault::ShortValues);
    }
    if number_firsts(bits).is_none() {
        return Err(TableFault::OverfullCodes);
    }
    Ok(total)
}

// How many codes there are.
pub(crate) fn count_all(bits: &[u8; 16]) -> u16
    ensures { result ≡ sum bits.now }
{
    let mut total = 0;
    for i in 0..16 {
        total += bits[i] as u16;
    }
    total
}

// The first number of each length (T.81, C.2, Figures C.1 and C.2); None where a code doesn't fit its length or is all
// ones.
fn number_firsts(bits: &[u8; 16]) -> Option<[u32; 16]>
    ensures firsts { IfSome result (λ firsts. AreFirsts bits.now firsts) }
    ensures right { IfSome result (λ firsts. are_codes 1 0 bits.now ≡ true) }
    ensures wrong { IfNone result (are_codes 1 0 bits.now ≡ false) }
{
    let mut firsts = [0; 16];
    let mut first = 0;
    let mut room = 2;
    for i in 0..16 {
        firsts[i] = first;
        let past = first + bits[i] as u32;
        if past >= room {
            return None;
        }
        first = 2 * past;
        room *= 2;
    }
    Some(firsts)
}

// By length, how many codes are shorter.
fn count_shorter(bits: &[u8; 16]) -> [u16; 16]
    ensures { AreStarts bits.now result }
{
    let mut starts = [0; 16];
    let mut start = 0;
    for i in 0..16 {
        starts[i] = start;
        start += bits[i] as u16;
    }
    starts
}

// By length, how many strings of that length begin a code of that length or of a longer one, or are before its first
// number; computed from the longest length on. With `firsts` and `starts` this is what DECODE needs (T.81, F.2.2.3, Figure
// F.15).
fn find_limits(bits: &[u8; 16], firsts: &[u32; 16]) -> [u32; 16]
    requires { AreFirsts bits.now firsts.now }
    ensures { AreCodeLimits bits.now firsts.now result }
{
    let mut limits = [0; 16];
    let mut limit = 2 * (firsts[15] + bits[15] as u32);
    let mut left = 16;
    while left > 0 {
        left -= 1;
        limit = limit.div_ceil(2);
        limits[left] = limit;
    }
    limits
}

// The symbols, followed by zeros.
pub(crate) fn keep_symbols(values: &[u8]) -> [u8; 256]
    requires { length values.now ≤ 256 }
    ensures { take (length values.now) result ≡ values.now }
{
    let mut symbols = [0; 256];
    for i in 0..values.len() {
        symbols[i] = values[i];
    }
    symbols
}

// What is written for each symbol: EHUFCO and EHUFSI (T.81, C.2, Figure C.3).
fn encode(
    bits: &[u8; 16],
    symbols: &[u8; 256],
    firsts: &[u32; 16],
    starts: &[u16; 16],
) -> [u32; 256]
    requires { (sum bits.now ≤ 256) × AreFirsts bits.now firsts.now × AreStarts bits.now starts.now }
    ensures { IsEncoder (codes bits.now symbols.now) result }
{
    let mut encoder = no_entries();
    for i in 0..16 {
        let start = starts[i] as usize;
        let level = &symbols[start..start + bits[i] as usize];
        add_level(&mut encoder, level, i as u32 + 1, firsts[i]);
    }
    encoder
}

// The entries of a table without codes.
fn no_entries() -> [u32; 256]
    ensures { result ≡ replicate 256 0 }
{
    [0; 256]
}

// Adds the codes of one length in bits, numbered from `first` on (T.81, Figures C.2 and C.3).
fn add_level(encoder: &mut [u32; 256], symbols: &[u8], size: u32, first: u32)
    requires length { (1 ≤ size) × (size ≤ 16) }
    requires fits { first + length symbols.now < 2 ^ size }
    requires entries { AreEntries encoder.old }
    ensures adds { HaveFirstCodes encoder.old (codes_at (length symbols.now) size first symbols.now) encoder.new [] }
    ensures entries { AreEntries encoder.new }
{
    let mut number = first;
    for i in 0..symbols.len() {
        add(encoder, symbols[i], size, number);
        number += 1;
    }
}

// Adds one code of `size` bits, if its symbol has none yet.
fn add(encoder: &mut [u32; 256], symbol: u8, size: u32, number: u32)
    requires length { (1 ≤ size) × (size ≤ 16) }
    requires fits { number < 2 ^ size }
    requires entries { AreEntries encoder.old }
    ensures adds { HaveFirstCodes encoder.old ((bits_of size number, symbol) ∷ []) encoder.new [] }
    ensures entries { AreEntries encoder.new }
{
    if encoder[symbol as usize] == 0 {
        encoder[symbol as usize] = 65536 * size + number;
    }
}
