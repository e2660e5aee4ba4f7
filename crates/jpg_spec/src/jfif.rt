//! The JFIF header (JFIF 1.02).

/// What a JFIF header means: whether one was seen, its version, and the unit and the numbers of its density (JFIF
/// 1.02). Without one the version is 1.01 and the density 1 by 1.
#[derive(Clone, Copy, Debug, PartialEq, Eq)]
pub struct Jfif {
    /// A JFIF header was seen.
    pub seen: bool,
    /// The major number of its version.
    pub major: u8,
    /// The minor number.
    pub minor: u8,
    /// The unit of the density.
    pub unit: u8,
    /// The horizontal density.
    pub x: u16,
    /// The vertical density.
    pub y: u16,
}
