//! The walk from bits to symbols, bit by bit: DECODE (T.81, F.2.2.3, Figure F.16).
ghost use Rattle.std.specs.Prelude.{◌≡◌, [], ◌∷◌, ◌++◌};
ghost use Rattle.jpg_huff.specs.Walk.{WalkAnswers};
ghost use Rattle.jpg_huff.specs.Tables.{symbol_codes};

use crate::Table;
use std::marker::Model;

/// What the bits so far are: a proper prefix of a code, a code with its symbol, or a prefix of none.
#[derive(Clone, Copy, Debug, PartialEq, Eq)]
pub enum WalkStep {
    More,
    Symbol(u8),
    NoCode,
}

/// The bits of a code so far, at most 15 (T.81, F.2.2.3).
#[derive(Drop)]
pub struct Walk {
    length: u8,
    number: u32,
}

impl Model for Walk {
    ghost use Rattle.std.specs.Prelude.{List, Bool, ◌<◌, ◌^◌};
    ghost use Rattle.jpg_spec.specs.Bits.{bits_of};

    ghost Value = { List Bool };

    ghost view = { λ w. bits_of w.length w.number };

    ghost invariant = { λ w. (w.length < 16) × (w.number < 2 ^ w.length) };
}

impl Walk {
    /// A walk without bits.
    pub fn new() -> Walk
        ensures { result ≡ [] }
    {
        Walk {
            length: 0,
            number: 0,
        }
    }

    /// Takes one more bit (T.81, Figure F.16). After a symbol, and where no code begins with the bits, none are kept.
    pub fn bit(&mut self, table: &Table, bit: bool) -> WalkStep
        ensures { WalkAnswers (symbol_codes table.now) (self.old ++ bit ∷ []) result self.new }
    {
        let at = self.length as usize;
        let number = 2 * self.number + u32::from(bit);
        let first = table.firsts[at];
        let count = u32::from(table.counts[at]);
        if number < first {
            self.length = 0;
            self.number = 0;
            WalkStep::NoCode
        } else if number < first + count {
            let symbol = table.symbols[table.starts[at] as usize + (number - first) as usize];
            self.length = 0;
            self.number = 0;
            WalkStep::Symbol(symbol)
        } else if at < 15 && number < table.limits[at] {
            self.length += 1;
            self.number = number;
            WalkStep::More
        } else {
            self.length = 0;
            self.number = 0;
            WalkStep::NoCode
        }
    }
}
