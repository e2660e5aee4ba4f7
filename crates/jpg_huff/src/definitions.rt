//! The definitions of Huffman tables in force: four slots for DC and four for AC tables (T.81, B.2.4.2).
ghost use Rattle.std.specs.Prelude.{◌≡◌, ◌<◌, Some, is_some, map, slice_set};
ghost use Rattle.std.specs.Option.{option_map};
ghost use Rattle.jpg_spec.specs.HuffContents.{huffman_in};
ghost use Rattle.jpg_huff.specs.Definitions.{definition_of, definitions_of, no_definitions};
ghost use Rattle.jpg_huff.specs.New.{AreRight, table_from};
ghost use Rattle.jpg_huff.specs.Sets.{slots_of};
ghost use Rattle.jpg_huff.specs.Tables.{table_of};

use crate::definition::Definition;
use crate::{Table, TableSet};

/// Four optional definitions of DC tables and four of AC tables, by slots 0 to 3 (T.81, B.2.4.2). Their tables are built
/// by `tables`.
#[derive(Drop)]
pub struct DefinitionSet {
    dc: [Option<Definition>; 4],
    ac: [Option<Definition>; 4],
}

impl DefinitionSet {
    /// A set with no definitions.
    pub fn new() -> DefinitionSet
        ensures { definitions_of result ≡ no_definitions }
    {
        DefinitionSet {
            dc: [None, None, None, None],
            ac: [None, None, None, None],
        }
    }

    /// Whether there is a DC table in a slot; false for slots from 4 on.
    pub fn has_dc(&self, slot: u8) -> bool
        ensures { result ≡ is_some (huffman_in (definitions_of self.now).dc slot) }
    {
        match self.dc.get(slot as usize) {
            Some(Some(_)) => true,
            Some(None) => false,
            None => false,
        }
    }

    /// Whether there is an AC table in a slot; false for slots from 4 on.
    pub fn has_ac(&self, slot: u8) -> bool
        ensures { result ≡ is_some (huffman_in (definitions_of self.now).ac slot) }
    {
        match self.ac.get(slot as usize) {
            Some(Some(_)) => true,
            Some(None) => false,
            None => false,
        }
    }

    /// Puts the table with these counts, for the first of the values, into a DC slot, 0 to 3.
    pub fn put_dc(&mut self, slot: u8, counts: &[u8; 16], values: &[u8])
        requires slot { slot < 4 }
        requires right { AreRight counts.now values.now }
        ensures dc { (definitions_of self.new).dc ≡ slice_set (definitions_of self.old).dc slot (Some (table_from counts.now values.now)) }
        ensures ac { (definitions_of self.new).ac ≡ (definitions_of self.old).ac }
    {
        self.dc[slot as usize] = Some(Definition::new(counts, values));
    }

    /// Puts the table with these counts, for the first of the values, into an AC slot, 0 to 3.
    pub fn put_ac(&mut self, slot: u8, counts: &[u8; 16], values: &[u8])
        requires slot { slot < 4 }
        requires right { AreRight counts.now values.now }
        ensures ac { (definitions_of self.new).ac ≡ slice_set (definitions_of self.old).ac slot (Some (table_from counts.now values.now)) }
        ensures dc { (definitions_of self.new).dc ≡ (definitions_of self.old).dc }
    {
        self.ac[slot as usize] = Some(Definition::new(counts, values));
    }

    /// The tables of all definitions, each in its slot.
    #[cold]
    #[inline(never)]
    pub fn tables(&self) -> TableSet
        ensures { slots_of result ≡ definitions_of self.now }
    {
        let mut set = TableSet::new();
        build_all(&self.dc, &mut set.dc);
        build_all(&self.ac, &mut set.ac);
        set
    }
}

// Puts the tables of four slots into places, where they stay: they take some kilobytes.
fn build_all(slots: &[Option<Definition>; 4], places: &mut [Option<Table>; 4])
    ensures { map (option_map table_of) places.new ≡ map (option_map definition_of) slots.now }
{
    let [first, second, third, fourth] = slots;
    build(first, &mut places[0]);
    build(second, &mut places[1]);
    build(third, &mut places[2]);
    build(fourth, &mut places[3]);
}

// Puts the table of a slot into a place, if there is one.
#[inline(never)]
fn build(slot: &Option<Definition>, place: &mut Option<Table>)
    ensures { option_map table_of place.new ≡ option_map definition_of slot.now }
{
    *place = match slot {
        Some(definition) => Some(definition.table()),
        None => None,
    };
}
