//! A block as it is stored by a byte for each AC.

/// A block: its DC, and its AC in a byte each; or the low bytes of all its numbers, and where their high bytes are.
#[derive(Clone, Copy)]
pub struct Cell {
    /// The DC.
    pub first: i16,
    /// 0, or one more than the number of its high bytes.
    pub room: u32,
    /// The AC, or the low bytes of all.
    pub low: [i8; 64],
}
