//! The codes of the components of a first DC pass, looked up many bits at once.
ghost use Rattle.std.specs.Prelude.{◌≡◌};
ghost use Rattle.std.specs.Option.{option_map};
ghost use Rattle.jpg_prog_read.specs.DcLookedUp.{AreDcLookedUp, IsOfSlot, dc_codes_at, no_looks};

use crate::codes::Codes;
use jpg_huff::TableSet;

/// The codes of DC tables, by slots 0 to 3.
#[derive(Drop)]
pub struct DcLooks {
    each: [Option<Codes>; 4],
}

// Puts the codes of the DC table in a slot into a place, if there are any.
#[cold]
#[inline(never)]
fn put_codes(place: &mut Option<Codes>, tables: &TableSet, slot: u8)
    ensures { IsOfSlot tables.now slot place.new }
{
    match tables.dc(slot) {
        Some(table) => *place = Some(Codes::new(table)),
        None => *place = None,
    }
}

impl DcLooks {
    /// No codes.
    #[inline(always)]
    pub fn none() -> DcLooks
        ensures { result ≡ no_looks }
    {
        DcLooks {
            each: [None, None, None, None],
        }
    }

    /// Becomes the codes of the DC tables of a set.
    pub fn look_up(&mut self, tables: &TableSet)
        requires { self.old ≡ no_looks }
        ensures { AreDcLookedUp tables.now self.new }
    {
        for slot in 0..4u8 {
            put_codes(&mut self.each[slot as usize], tables, slot);
        }
    }

    /// The codes of a slot, None if there are none, and for slots from 4 on.
    pub fn at(&self, slot: u8) -> Option<&Codes>
        ensures { option_map (λ c. c.now) result ≡ dc_codes_at self.now slot }
    {
        match self.each.get(slot as usize) {
            Some(Some(codes)) => Some(codes),
            Some(None) => None,
            None => None,
        }
    }
}
