//! A scan of a script (T.81, B.2.3).
ghost use Rattle.std.specs.Prelude.{◌≡◌, []};

use arrayvec::ArrayVec;
use std::marker::Model;

/// A scan of a script (T.81, B.2.3).
#[derive(Drop)]
pub struct Entry {
    /// Its components, by their index in the frame.
    pub components: ArrayVec<u8, 4>,
    /// The first place of its band, in zigzag order.
    pub ss: u8,
    /// The last place.
    pub se: u8,
    /// The bit down to which earlier scans sent the band, 0 for none.
    pub ah: u8,
    /// The bit down to which this one sends it.
    pub al: u8,
}

impl Model for Entry {
    ghost use Rattle.jpg_spec_write.specs.Script.{Entry as Scan};

    ghost Value = { Scan };

    ghost view = { λ e. record { components = e.components.items; ss = e.ss; se = e.se; ah = e.ah; al = e.al } };
}

impl Entry {
    /// A copy of the entry.
    pub fn copy(&self) -> Entry
        ensures { result ≡ self.now }
    {
        let mut components = ArrayVec::new();
        let _ = components.try_extend_from_slice(self.components.as_slice());
        Entry {
            components,
            ss: self.ss,
            se: self.se,
            ah: self.ah,
            al: self.al,
        }
    }
}

// An entry without components.
impl Default for Entry {
    fn default() -> Entry {
        Entry {
            components: ArrayVec::new(),
            ss: 0,
            se: 0,
            ah: 0,
            al: 0,
        }
    }
}
