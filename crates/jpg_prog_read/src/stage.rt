//! Which part of an element is read.

/// Which part of an element of a band is read.
#[derive(Clone, Copy)]
pub enum Stage {
    /// Its code.
    Code,
    /// The bits of a value.
    Number,
    /// The bits of the length of an end-of-band run.
    Count,
    /// The values before a value's place, or the corrections among them.
    Value,
    /// The sixteen zeros of ZRL, or the corrections among them.
    Long,
    /// The bands of an end-of-band run.
    Ends,
}
