//! Images: their numbers, and the formats that they are written in.

/// What the rows of an image are: one number per pixel, or red, green and blue.
#[derive(Clone, Copy, Debug, PartialEq, Eq)]
pub enum ImageKind {
    Gray,
    Rgb,
}

/// The numbers of an image.
#[derive(Clone, Copy, Debug, PartialEq, Eq)]
pub struct ImageInfo {
    /// Pixels of a row.
    pub width: u32,
    /// Rows.
    pub height: u32,
    /// What a pixel is.
    pub kind: ImageKind,
    /// Pixels per metre horizontally; 0: unknown.
    pub x_metre: u32,
    /// Pixels per metre vertically; 0: unknown.
    pub y_metre: u32,
}

/// The formats of images.
#[derive(Clone, Copy, Debug, PartialEq, Eq)]
pub enum EndKind {
    Pnm,
    Bmp,
    Targa,
}
