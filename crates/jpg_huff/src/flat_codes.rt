//! Tables of codes of one length (T.81, C.2).
ghost use Rattle.std.specs.Prelude.{◌≡◌, ◌<◌, ◌≤◌, ◌+◌, ◌-◌, [], ◌∷◌, ◌++◌, if◌then◌else◌, length, take, replicate};
ghost use Rattle.jpg_spec.specs.FlatTable.{flat_length_from, flat_table};
ghost use Rattle.jpg_huff.specs.Tables.{table_of};
ghost use Rattle.jpg_huff.specs.Flat.{symbols_in};

use crate::{Table, Typical, typical};

// Adds a symbol to the first ones, if it is sent. Returns how many there are then.
fn keep(is_sent: bool, symbol: u8, symbols: &mut [u8; 256], count: u16) -> u16
    requires { count < 256 }
    ensures kept { take result symbols.new ≡ take count symbols.old ++ (if is_sent then symbol ∷ [] else []) }
    ensures most { result ≤ count + 1 }
{
    if is_sent {
        symbols[count as usize] = symbol;
        count + 1
    } else {
        count
    }
}

// Puts the symbols that are sent at the start of the list. Returns how many they are.
fn gather(counts: &[u32; 256], symbols: &mut [u8; 256]) -> u16
    ensures kept { take result symbols.new ≡ symbols_in counts.now }
    ensures most { result ≤ 256 }
{
    let mut count = 0;
    for symbol in 0..256usize {
        count = keep(counts[symbol] > 0, symbol as u8, symbols, count);
    }
    count
}

// The least length that has more codes than `count`.
fn flat_length(count: u8) -> u8
    ensures value { result ≡ flat_length_from 8 1 count }
    ensures within { (1 ≤ result) × (result ≤ 8) }
{
    let mut length = 1;
    let mut room = 2u16;
    while u16::from(count) >= room {
        length += 1;
        room *= 2;
    }
    length
}

// The counts of a table of `count` codes, all of one length.
fn flat_counts(count: u8) -> [u8; 16]
    ensures { result ≡ replicate (flat_length_from 8 1 count - 1) 0 ++ count ∷ replicate (16 - flat_length_from 8 1 count) 0 }
{
    let mut counts = [0; 16];
    counts[flat_length(count) as usize - 1] = count;
    counts
}

/// The table of the symbols whose count isn't 0, at most 255, in ascending order with codes of one length: the least of
/// which there are more codes than symbols, since none may be all ones (T.81, Annex C, C.2).
pub fn flat(counts: &[u32; 256]) -> Table
    requires { length (symbols_in counts.now) ≤ 255 }
    ensures { table_of result ≡ flat_table (symbols_in counts.now) }
{
    let mut symbols = [0; 256];
    let count = gather(counts, &mut symbols) as u8;
    match Table::new(&flat_counts(count), &symbols[..count as usize]) {
        Ok(table) => table,
        Err(_) => typical(Typical::DcLuma),
    }
}
