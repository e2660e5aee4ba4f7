//! The codes of a table: the walk over them, and their lookup.
ghost use Rattle.std.specs.Prelude.{◌≡◌, [], ◌∷◌, ◌++◌};
ghost use Rattle.jpg_huff.specs.Look.{Spots};
ghost use Rattle.jpg_huff.specs.Tables.{symbol_codes};
ghost use Rattle.jpg_huff.specs.Walk.{WalkAnswers};

use crate::table_copy::copy_of;
use jpg_base::BitStore;
use jpg_huff::{Decoder, Spotted, Table, Walk, WalkStep};
use std::marker::Model;

/// The codes of a table: the table for a walk, and its decoder for lookups.
#[derive(Drop)]
pub struct Codes {
    table: Table,
    decoder: Decoder,
}

impl Model for Codes {
    ghost use Rattle.std.specs.Prelude.{◌≡◌, List};
    ghost use Rattle.jpg_spec.specs.Codes.{Code};
    ghost use Rattle.jpg_huff.specs.Tables.{symbol_codes};

    ghost Value = { List Code };

    ghost view = { λ c. symbol_codes c.table };

    ghost invariant = { λ c. c.decoder ≡ symbol_codes c.table };
}

impl Codes {
    /// The codes of this table.
    #[cold]
    #[inline(never)]
    pub fn new(table: &Table) -> Codes
        ensures { result ≡ symbol_codes table.now }
    {
        let table = copy_of(table);
        let decoder = Decoder::new(&table);
        Codes { table, decoder }
    }

    /// Takes one more bit of a code.
    pub fn walk(&self, walk: &mut Walk, bit: bool) -> WalkStep
        ensures { WalkAnswers self.now (walk.old ++ bit ∷ []) result walk.new }
    {
        walk.bit(&self.table, bit)
    }

    /// Which code these bits begin with.
    #[inline(always)]
    pub fn spot(&self, bits: &BitStore) -> Spotted
        ensures { Spots self.now bits.now result }
    {
        self.decoder.spot(bits)
    }
}
