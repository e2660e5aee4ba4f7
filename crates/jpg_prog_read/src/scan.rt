//! The numbers of a progressive scan (T.81, G.1.1.1, G.1.2).

/// The parameters of the readers of a band.
#[derive(Clone, Copy, Debug, PartialEq, Eq)]
pub struct BandScan {
    /// Its first place in zigzag order (Ss).
    pub start: u8,
    /// The place after its last one (Se + 1), at most 64.
    pub end: u8,
    /// `2 ^ al`.
    pub scale: u16,
    /// The greatest category of a value, 1 in a refinement.
    pub most_category: u8,
    /// The greatest magnitude of a value.
    pub most_magnitude: u16,
    /// Whether it refines what an earlier scan has sent.
    pub refines: bool,
}

/// The parameters of the readers of a DC scan.
#[derive(Clone, Copy, Debug, PartialEq, Eq)]
pub struct DcScan {
    /// The least value.
    pub low: i32,
    /// The greatest value.
    pub high: i32,
    /// `2 ^ al`.
    pub scale: u16,
    /// The greatest category of a difference.
    pub most_category: u8,
}
