//! A copy of a table.
ghost use Rattle.std.specs.Prelude.{◌≡◌};
ghost use Rattle.jpg_huff.specs.Tables.{symbol_codes};

use jpg_huff::Table;

/// A table with the same codes.
#[cold]
#[inline(never)]
pub fn copy_of(table: &Table) -> Table
    ensures { symbol_codes result ≡ symbol_codes table.now }
{
    let mut counts = [0; 16];
    for i in 0..16u8 {
        counts[i as usize] = table.count(i + 1);
    }
    match Table::new(&counts, table.symbols()) {
        Ok(table) => table,
        Err(_) => unreachable!(),
    }
}
