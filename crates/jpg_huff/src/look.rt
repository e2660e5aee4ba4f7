//! Codes of up to eight bits looked up at once, and the code that bits begin with: DECODE (T.81, F.2.2.3, Figure F.16).
ghost use Rattle.std.specs.Prelude.{◌≡◌, ◌<◌, ◌≤◌, List, length, Contains, true};
ghost use Rattle.jpg_spec.specs.Parts.{BeginsCode};
ghost use Rattle.jpg_spec.specs.Codes.{Code};
ghost use Rattle.jpg_spec.specs.Bits.{bits_of};
ghost use Rattle.jpg_huff.specs.Tables.{symbol_codes};
ghost use Rattle.jpg_huff.specs.Laws.{AreApart};
ghost use Rattle.jpg_huff.specs.Look.{LooksUp, found_of, IsLookOf, Spots};

use crate::{Table, Walk, WalkStep};
use jpg_base::BitStore;
use std::marker::Model;

/// A code of at most eight bits: its length and its symbol.
#[derive(Clone, Copy, Debug, PartialEq, Eq)]
pub struct Found {
    pub length: u8,
    pub symbol: u8,
}

/// The codes of a table by the next eight bits.
#[derive(Drop)]
pub struct Look {
    // 256 times the length of the code, plus its symbol; 0 for none
    pub(crate) entries: [u16; 256],
}

/// Which code bits begin with.
#[derive(Clone, Copy, Debug, PartialEq, Eq)]
pub enum Spotted {
    /// A code, by its length, and its symbol.
    Symbol { length: u8, symbol: u8 },
    /// All the bits are a proper prefix of a code, or there are none.
    Part,
    /// No code begins with the first `length` bits, but one begins with all of them except the last.
    NoCode { length: u8 },
}

// The entry of these eight bits.
fn entry(table: &Table, byte: u8) -> u16
    ensures { LooksUp (symbol_codes table.now) (bits_of 8 byte) (found_of result) }
{
    for at in 0..8u8 {
        let number = u32::from(byte >> (7 - at));
        let first = table.firsts[at as usize];
        if number >= first && number - first < u32::from(table.counts[at as usize]) {
            let symbol = table.symbols[table.starts[at as usize] as usize
                + (number - first) as usize];
            return 256 * u16::from(at + 1) + u16::from(symbol);
        }
    }
    0
}

impl Look {
    /// The lookup of this table's codes.
    pub fn new(table: &Table) -> Look
        ensures { IsLookOf (symbol_codes table.now) result }
    {
        let mut entries = [0; 256];
        for byte in 0..256usize {
            entries[byte] = entry(table, byte as u8);
        }
        Look { entries }
    }

    /// The code of at most eight bits that these eight begin with, None if there is none.
    #[inline(always)]
    pub fn at(&self, bits: u8) -> Option<Found>
        ensures { (codes : List Code) → IsLookOf codes self.now → LooksUp codes (bits_of 8 bits) result }
    {
        let entry = self.entries[bits as usize];
        if entry == 0 {
            None
        } else {
            Some(Found {
                length: (entry >> 8) as u8,
                symbol: (entry % 256) as u8,
            })
        }
    }
}

/// A table, and the lookup of its codes.
#[derive(Drop)]
pub struct Decoder {
    table: Table,
    look: Look,
}

impl Model for Decoder {
    ghost use Rattle.std.specs.Prelude.{List};
    ghost use Rattle.jpg_spec.specs.Codes.{Code};
    ghost use Rattle.jpg_huff.specs.Tables.{symbol_codes};
    ghost use Rattle.jpg_huff.specs.Laws.{AreApart};
    ghost use Rattle.jpg_huff.specs.Look.{IsLookOf};

    ghost Value = { List Code };

    ghost view = { λ d. symbol_codes d.table };

    ghost invariant = { λ d. IsLookOf (symbol_codes d.table) d.look };
}

impl Decoder {
    /// The decoder of this table's codes.
    pub fn new(table: &Table) -> Decoder
        ensures { result ≡ symbol_codes table.now }
    {
        Decoder {
            table: table.copy(),
            look: Look::new(table),
        }
    }

    // The result of `spot`, found bit by bit.
    #[cold]
    #[inline(never)]
    fn walked(&self, bits: &BitStore) -> Spotted
        ensures { Spots self.now bits.now result }
    {
        let mut walk = Walk::new();
        for i in 0..bits.len() {
            match walk.bit(&self.table, bits.bit(i)) {
                WalkStep::More => {}
                WalkStep::Symbol(symbol) => return Spotted::Symbol {
                    length: i + 1,
                    symbol,
                },
                WalkStep::NoCode => return Spotted::NoCode { length: i + 1 },
            }
        }
        Spotted::Part
    }

    // `spot` for at least sixteen bits; longer codes than eight bits are found by their numbers.
    #[cold]
    #[inline(never)]
    fn long(&self, bits: &BitStore) -> Spotted
        ensures { Spots self.now bits.now result }
    {
        if bits.len() >= 16 {
            let sixteen = bits.peek(16);
            for at in 8..16u8 {
                let number = sixteen >> (15 - at);
                let first = self.table.firsts[at as usize];
                if number >= first && number - first < u32::from(self.table.counts[at as usize]) {
                    return Spotted::Symbol {
                        length: at + 1,
                        symbol: self.table.symbols[self.table.starts[at as usize] as usize
                            + (number - first) as usize],
                    };
                }
            }
        }
        self.walked(bits)
    }

    /// States, for proofs, that no code is a prefix of another, and none is empty. It does nothing.
    pub fn apart(&self)
        ensures one { AreApart self.now }
        ensures some { (code : Code) → Contains self.now code → 1 ≤ length code.0 }
    {
        let _ = &self.look;
    }

    /// Which code these bits begin with (T.81, F.2.2.3, Figure F.16).
    #[inline(always)]
    pub fn spot(&self, bits: &BitStore) -> Spotted
        ensures { Spots self.now bits.now result }
    {
        let have = bits.len();
        if have >= 8 {
            match self.look.at(bits.peek(8) as u8) {
                Some(found) => Spotted::Symbol {
                    length: found.length,
                    symbol: found.symbol,
                },
                None => self.long(&bits.copy()),
            }
        } else {
            self.few(&bits.copy())
        }
    }

    // Whether a longer code begins with these few bits. Where this is false, a walk decides.
    fn begins(&self, number: u32, length: u8) -> bool
        requires some { 1 ≤ length }
        requires few { length < 8 }
        ensures { result ≡ true → BeginsCode self.now (bits_of length number) }
    {
        let at = length as usize - 1;
        let behind = self.table.firsts[at] + u32::from(self.table.counts[at]);
        behind <= number && number < self.table.limits[at]
    }

    // `spot` for bits that are only the start of a code, or begin none (T.81, F.2.2.3).
    fn front(&self, bits: &BitStore, have: u8, number: u32) -> Spotted
        requires few { (have ≡ length bits.now) × (have < 8) }
        requires number { bits_of have number ≡ bits.now }
        ensures { Spots self.now bits.now result }
    {
        if have == 0 {
            Spotted::Part
        } else if self.begins(number, have) {
            Spotted::Part
        } else {
            self.walked(&bits.copy())
        }
    }

    // `spot` for fewer than eight bits.
    #[inline(always)]
    fn few(&self, bits: &BitStore) -> Spotted
        requires { length bits.now < 8 }
        ensures { Spots self.now bits.now result }
    {
        let have = bits.len();
        let number = bits.peek(have);
        match self.look.at(((number << (8 - have)) % 256) as u8) {
            Some(found) => {
                if found.length <= have {
                    Spotted::Symbol {
                        length: found.length,
                        symbol: found.symbol,
                    }
                } else {
                    self.front(bits, have, number)
                }
            }
            None => self.front(bits, have, number),
        }
    }
}
