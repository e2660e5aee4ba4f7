//! The text of tables, byte by byte (the manual of cjpeg, -qtables).
ghost use Rattle.std.specs.Prelude.{◌≡◌, ◌<◌, ◌≤◌, length};
ghost use Rattle.jpg_spec_image.specs.Quality.{in_zigzag};
ghost use Rattle.jpg_spec.specs.TextReaders.{taken};
ghost use Rattle.jpg_spec_image.specs.TableText.{TellsTables, is_count, tables_of};
ghost use Rattle.jpg_dct.specs.ReadTables.{tables_or_fault};
ghost use Rattle.jpg_dct.specs.TableState.{digit_step, ended, no_numbers, tables_kind};

use crate::forward::blocks::ZIGZAG;
use arrayvec::ArrayVec;
use jpg_base::{Fault, FaultAt, QuantTable};
use jpg_texts::{TextBytes, is_digit, is_space, read_text};
use std::marker::Model;

// The numbers of a text so far.
#[derive(Drop)]
pub struct TableNumbers {
    // The complete numbers.
    numbers: ArrayVec<u16, 256>,
    // How many digits of the next one were read.
    digits: u8,
    // The number that these digits are.
    value: u16,
}

impl Model for TableNumbers {
    ghost use Rattle.jpg_dct.specs.TableState.{NumbersState, HasRoom};

    ghost Value = { NumbersState };

    ghost view = { λ r. record { numbers = r.numbers.items; digits = r.digits; value = r.value } };

    ghost invariant = { λ r. HasRoom r.numbers.items r.digits };
}

/// The tables that a text encodes, in the form of table files (the manual of cjpeg): 64, 128, 192 or 256 numbers of one
/// to five digits and at most 65535, with space between; each 64 are a table, row by row. Otherwise TableText at the
/// first byte that no such text has there, at the text's end if it ends too early, or at 65537 if it is longer than
/// 65536 bytes.
pub fn read_tables(text: &[u8]) -> Result<ArrayVec<QuantTable, 4>, FaultAt>
    ensures { TellsTables text.now (tables_or_fault result) }
{
    read_text(text, TableNumbers::new(), Fault::TableText)
}

impl TableNumbers {
    fn new() -> TableNumbers
        ensures { result ≡ no_numbers }
    {
        TableNumbers {
            numbers: ArrayVec::new(),
            digits: 0,
            value: 0,
        }
    }

    fn digit(&mut self, digit: u8) -> bool
        requires { digit < 10 }
        ensures { taken result self.new ≡ digit_step self.old digit }
    {
        let next = 10 * u32::from(self.value) + u32::from(digit);
        if self.numbers.len() >= 256 || self.digits >= 5 || next > 65535 {
            return false;
        }
        self.digits += 1;
        self.value = next as u16;
        true
    }

    // Completes the current number, if any.
    fn end_number(&mut self)
        ensures { self.new ≡ ended self.old }
    {
        if self.digits > 0 {
            self.numbers.push(self.value);
            self.digits = 0;
            self.value = 0;
        }
    }
}

impl TextBytes<ArrayVec<QuantTable, 4>> for TableNumbers {
    ghost kind = { tables_kind };

    fn byte(&mut self, byte: u8) -> bool {
        if is_digit(byte) {
            return self.digit(byte - b'0');
        }
        self.end_number();
        is_space(byte)
    }

    fn end(mut self) -> Option<ArrayVec<QuantTable, 4>> {
        self.end_number();
        if !is_count(self.numbers.len()) {
            return None;
        }
        Some(tables_of(self.numbers.as_slice()))
    }
}

// Whether this many numbers are one to four tables.
fn is_count(count: usize) -> bool
    ensures value { result ≡ is_count count }
{
    count == 64 || (count == 128 || (count == 192 || count == 256))
}

// The tables of the numbers, of 64 each.
fn tables_of(numbers: &[u16]) -> ArrayVec<QuantTable, 4>
    requires { length numbers.now ≤ 256 }
    ensures { result.items ≡ tables_of numbers.now }
{
    let mut tables = ArrayVec::new();
    for i in 0..numbers.len() / 64 {
        tables.push(table_of(&numbers[64 * i..64 * i + 64]));
    }
    tables
}

// A table from its numbers row by row, in zigzag order.
fn table_of(rows: &[u16]) -> QuantTable
    requires { length rows.now ≡ 64 }
    ensures { result ≡ in_zigzag rows.now }
{
    let mut values = [0; 64];
    for k in 0..64 {
        values[k] = rows[ZIGZAG[k]];
    }
    QuantTable::of(values)
}
