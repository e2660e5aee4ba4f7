//! A Huffman table (T.81, Annex C). In addition to its counts and symbols it has what a walk needs for each length
//! (F.2.2.3, Figure F.15), and what is written for each symbol (Figure C.3).
ghost use Rattle.std.specs.Prelude.{◌≡◌, ◌<◌, ◌≤◌, ◌-◌, ◌^◌, length, sum, take};
ghost use Rattle.jpg_spec.specs.Codes.{codes};
ghost use Rattle.jpg_huff.specs.Index.{IsIndexed, IsEncoder};

/// A Huffman table: at most 256 symbols with codes of 1 to 16 bits, of which none is all ones
/// (T.81, Annex C).
#[derive(Drop)]
pub struct Table {
    // BITS: by length, from 1 on, how many codes there are.
    pub(crate) counts: [u8; 16],
    // HUFFVAL: the symbols in the order of their codes, and then zeros.
    pub(crate) symbols: [u8; 256],
    // How many codes there are.
    pub(crate) total: u16,
    // By length, the number of the first code.
    pub(crate) firsts: [u32; 16],
    // By length, how many codes are shorter.
    pub(crate) starts: [u16; 16],
    // By length, the limit of the numbers that begin a code of that length or of a longer one (`find_limits`).
    pub(crate) limits: [u32; 16],
    // By symbol, 65536 times the length of its first code, plus that code's number.
    pub(crate) encoder: [u32; 256],
    pub ghost indexed: { IsIndexed counts (length symbols) firsts starts limits },
    pub ghost summed: { total ≡ sum counts },
    pub ghost encoded: { IsEncoder (codes counts (take total symbols)) encoder },
}

/// A code: its length, 1 to 16, and its bits as a number. A length of 0 means no code.
#[derive(Clone, Copy, Debug, PartialEq, Eq)]
pub struct Code {
    pub length: u8,
    pub bits: u16,
}

impl Table {
    ghost use Rattle.std.specs.Prelude.{IfSome, slice_index};
    ghost use Rattle.std.specs.Option.{option_map};
    ghost use Rattle.jpg_spec.specs.Bits.{bits_of};
    ghost use Rattle.jpg_spec.specs.Codes.{first_code};
    ghost use Rattle.jpg_spec.specs.Codes.{code_of};
    ghost use Rattle.jpg_huff.specs.Tables.{table_of, symbol_codes};

    /// How many codes of a length, 1 to 16, there are.
    pub fn count(&self, length: u8) -> u8
        requires { (1 ≤ length) × (length ≤ 16) }
        ensures { result ≡ slice_index (table_of self.now).counts (length - 1) }
    {
        self.counts[length as usize - 1]
    }

    /// The symbols in the order of their codes.
    pub fn symbols(&self) -> &[u8]
        ensures { result.now ≡ (table_of self.now).symbols }
    {
        &self.symbols[..self.total as usize]
    }

    /// The first code of a symbol, None if the table has none.
    #[inline(always)]
    pub fn code(&self, symbol: u8) -> Option<Code>
        ensures first { option_map (λ c. bits_of c.length c.bits) result ≡ first_code (symbol_codes self.now) symbol }
        ensures fits { IfSome result (λ c. (1 ≤ c.length) × (c.length ≤ 16) × (c.bits < 2 ^ c.length)) }
    {
        let entry = self.encoder[symbol as usize];
        if entry == 0 {
            None
        } else {
            Some(Code {
                length: (entry >> 16) as u8,
                bits: (entry % 65536) as u16,
            })
        }
    }

    /// What is written for a symbol: its first code, or no bits if the table has none.
    #[inline(always)]
    pub fn written(&self, symbol: u8) -> Code
        ensures first { bits_of result.length result.bits ≡ code_of (symbol_codes self.now) symbol }
        ensures short { result.length ≤ 16 }
        ensures fits { result.bits < 2 ^ result.length }
    {
        let entry = self.encoder[symbol as usize];
        Code {
            length: (entry >> 16) as u8,
            bits: (entry % 65536) as u16,
        }
    }

    // A copy of the table.
    pub(crate) fn copy(&self) -> Table
        ensures { result ≡ self.now }
    {
        Table {
            counts: self.counts,
            symbols: self.symbols,
            total: self.total,
            firsts: self.firsts,
            starts: self.starts,
            limits: self.limits,
            encoder: self.encoder,
        }
    }
}
