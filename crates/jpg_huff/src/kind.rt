//! The names of the typical tables.

/// A typical table: for DC or AC coefficients, of luminance or chrominance (T.81, Annex K.3).
#[derive(Clone, Copy, Debug, PartialEq, Eq)]
pub enum Typical {
    DcLuma,
    DcChroma,
    AcLuma,
    AcChroma,
}
