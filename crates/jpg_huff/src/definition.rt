//! The definition of a Huffman table as it is in a file: its counts and symbols (T.81, B.2.4.2, C.1).
ghost use Rattle.std.specs.Prelude.{◌≡◌, ◌≤◌, true, sum};
ghost use Rattle.jpg_spec.specs.Codes.{are_codes};

use crate::Table;
use crate::new::{count_all, keep_symbols};

// The counts and symbols of a table.
#[derive(Drop)]
pub(crate) struct Definition {
    counts: [u8; 16],
    // those after the last code are 0
    symbols: [u8; 256],
    total: u16,
    ghost summed: { total ≡ sum counts },
    ghost most: { sum counts ≤ 256 },
    ghost fit: { are_codes 1 0 counts ≡ true },
}

impl Definition {
    ghost use Rattle.jpg_huff.specs.Definitions.{definition_of};
    ghost use Rattle.jpg_huff.specs.New.{AreRight, table_from};
    ghost use Rattle.jpg_huff.specs.Tables.{table_of};

    // The definition with these counts, for the first of the values.
    pub(crate) fn new(counts: &[u8; 16], values: &[u8]) -> Definition
        requires { AreRight counts.now values.now }
        ensures { definition_of result ≡ table_from counts.now values.now }
    {
        let total = count_all(counts);
        Definition {
            counts: *counts,
            symbols: keep_symbols(&values[..total as usize]),
            total,
        }
    }

    // Its table.
    pub(crate) fn table(&self) -> Table
        ensures { table_of result ≡ definition_of self.now }
    {
        Table::of_right(&self.counts, &self.symbols[..self.total as usize])
    }
}
