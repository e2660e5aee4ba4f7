//! The area that a picture is cropped to (the manual of libjpeg-turbo's jpegtran, `-crop`).

/// A rectangle of the samples of a picture.
#[derive(Clone, Copy, Debug, PartialEq, Eq)]
pub struct Area {
    /// Its width.
    pub w: u32,
    /// Its height.
    pub h: u32,
    /// The column of its upper left corner.
    pub x: u32,
    /// The row of its upper left corner.
    pub y: u32,
}
