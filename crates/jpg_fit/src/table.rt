//! The table that is made for counts (T.81, Annex K.2, Figures K.1 to K.4).
ghost use Rattle.std.specs.Prelude.{◌≡◌, ◌≤◌, nat_lt, take};
ghost use Rattle.jpg_spec.specs.Lists.{any_of};
ghost use Rattle.jpg_spec_fit.specs.Fitted.{fitted};
ghost use Rattle.jpg_huff.specs.Tables.{table_of};
ghost use Rattle.jpg_fit.specs.Parts.{AreParts};

use crate::adjust::table_counts;
use crate::sizes::code_sizes;
use crate::sort::sort;
use jpg_huff::Table;

// Whether any symbol is sent.
fn is_any_sent(counts: &[u32; 256]) -> bool
    ensures { result ≡ any_of (λ count. nat_lt 0 count) counts.now }
{
    for count in counts {
        if *count > 0 {
            return true;
        }
    }
    false
}

// Puts the symbols that are sent in the order of their codes. Returns how many codes there are of each size, and how
// many there are in all.
fn put_symbols(counts: &[u32; 256], symbols: &mut [u8; 256]) -> ([u8; 16], u16)
    ensures parts { AreParts counts.now result.0 (take result.1 symbols.new) }
    ensures within { result.1 ≤ 256 }
{
    if !is_any_sent(counts) {
        return ([0; 16], 0);
    }
    let sizes = code_sizes(counts);
    let bits = table_counts(&sizes);
    let count = sort(&sizes, symbols);
    (bits, count)
}

/// The table for symbols that are sent as often as their counts say: codes of few bits for symbols that are often sent,
/// at most 16 bits for any, and none for a symbol that isn't sent (T.81, Annex K.2). A table for counts of 0 has no
/// codes.
pub fn fitted(counts: &[u32; 256]) -> Table
    ensures { table_of result ≡ fitted counts.now }
{
    let mut symbols = [0; 256];
    let (bits, count) = put_symbols(counts, &mut symbols);
    match Table::new(&bits, &symbols[..count as usize]) {
        Ok(table) => table,
        Err(_) => unreachable!(),
    }
}
