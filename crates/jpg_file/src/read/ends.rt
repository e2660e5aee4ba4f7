//! The end of an input that has no complete file.

use jpg_base::Stop;

/// The result of a file that ends before its EOI.
#[derive(Clone, Copy, Debug, PartialEq, Eq)]
pub enum End {
    /// It ends early, after this many bytes, and means what it has: each component has begun.
    Early(u64),
    /// It is truncated, or had a fault before.
    Stop(Stop),
}
