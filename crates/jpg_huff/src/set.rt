//! The tables in force: four slots for DC and four for AC tables (T.81, B.2.4.2).
ghost use Rattle.std.specs.Prelude.{◌≡◌, ◌<◌, Some, slice_set};
ghost use Rattle.std.specs.Option.{option_map};
ghost use Rattle.jpg_huff.specs.Sets.{HasFour, dc_tables, ac_tables, in_slot, no_tables};

use crate::Table;

/// Four optional DC tables and four optional AC tables, by slots 0 to 3 (T.81, B.2.4.2).
#[derive(Drop)]
pub struct TableSet {
    pub(crate) dc: [Option<Table>; 4],
    pub(crate) ac: [Option<Table>; 4],
}

impl TableSet {
    /// A set with no tables.
    pub fn new() -> TableSet
        ensures dc { dc_tables result ≡ no_tables }
        ensures ac { ac_tables result ≡ no_tables }
    {
        TableSet {
            dc: [None, None, None, None],
            ac: [None, None, None, None],
        }
    }

    /// Does nothing. A set has four slots of each class, by its type.
    pub fn slots(&self)
        ensures { HasFour self.now }
    {
        let _ = &self.dc;
    }

    /// The DC table in a slot, None if there is none, and for slots from 4 on.
    pub fn dc(&self, slot: u8) -> Option<&Table>
        ensures { option_map (λ t. t.now) result ≡ in_slot (dc_tables self.now) slot }
    {
        match self.dc.get(slot as usize) {
            Some(Some(table)) => Some(table),
            Some(None) => None,
            None => None,
        }
    }

    /// The AC table in a slot, None if there is none, and for slots from 4 on.
    pub fn ac(&self, slot: u8) -> Option<&Table>
        ensures { option_map (λ t. t.now) result ≡ in_slot (ac_tables self.now) slot }
    {
        match self.ac.get(slot as usize) {
            Some(Some(table)) => Some(table),
            Some(None) => None,
            None => None,
        }
    }

    /// Puts a copy of the table into a DC slot, 0 to 3.
    pub fn set_dc(&mut self, slot: u8, table: &Table)
        requires { slot < 4 }
        ensures dc { dc_tables self.new ≡ slice_set (dc_tables self.old) slot (Some table.now) }
        ensures ac { ac_tables self.new ≡ ac_tables self.old }
    {
        self.dc[slot as usize] = Some(table.copy());
    }

    /// Puts a copy of the table into an AC slot, 0 to 3.
    pub fn set_ac(&mut self, slot: u8, table: &Table)
        requires { slot < 4 }
        ensures ac { ac_tables self.new ≡ slice_set (ac_tables self.old) slot (Some table.now) }
        ensures dc { dc_tables self.new ≡ dc_tables self.old }
    {
        self.ac[slot as usize] = Some(table.copy());
    }
}
