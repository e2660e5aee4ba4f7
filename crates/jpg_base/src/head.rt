//! The header of a scan (T.81, B.2.3, Figure B.4, Table B.3).
ghost use Rattle.std.specs.Prelude.{◌≡◌};

use arrayvec::ArrayVec;
use jpg_spec::ScanPart;
use std::marker::Model;

/// A scan header: one to four components of the frame with their table slots, the band `ss` to
/// `se` in zigzag places, and the bits `ah` and `al` of successive approximation (T.81, B.2.3).
#[derive(Drop)]
pub struct ScanHead {
    /// The components, in the order of the header.
    pub parts: ArrayVec<ScanPart, 4>,
    /// Ss: the first place of the band.
    pub ss: u8,
    /// Se: its last place.
    pub se: u8,
    /// Ah: the bit down to which the values were known before, 0 in a first pass.
    pub ah: u8,
    /// Al: the bit down to which they are sent.
    pub al: u8,
}

impl Model for ScanHead {
    ghost use Rattle.jpg_spec.specs.Segments.{ScanHead as Head};

    ghost Value = { Head };

    ghost view = { λ h. record { parts = h.parts.items; ss = h.ss; se = h.se; ah = h.ah; al = h.al } };
}

impl ScanHead {
    /// A copy of the header.
    pub fn copy(&self) -> ScanHead
        ensures { result ≡ self.now }
    {
        let mut parts = ArrayVec::new();
        let _ = parts.try_extend_from_slice(self.parts.as_slice());
        ScanHead {
            parts,
            ss: self.ss,
            se: self.se,
            ah: self.ah,
            al: self.al,
        }
    }
}
