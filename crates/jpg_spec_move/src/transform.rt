//! The transforms of a picture (the manual of jpegtran).

/// A lossless transform of a picture. Rotations are clockwise.
#[derive(Clone, Copy, Debug, PartialEq, Eq)]
pub enum Transform {
    Keep,
    /// Mirrored left to right.
    FlipH,
    /// Mirrored top to bottom.
    FlipV,
    /// Rows become columns: mirrored at the diagonal from the upper left.
    Transpose,
    /// Mirrored at the other diagonal.
    Transverse,
    Rotate90,
    Rotate180,
    Rotate270,
}
