//! The Huffman tables that the scans of a file are written with.

/// Which Huffman tables the scans of a file are written with.
#[derive(Clone, Copy, Debug, PartialEq, Eq)]
pub enum Huffman {
    /// The typical tables in sequential scans of precision 8 (T.81, K.3), otherwise tables of codes of equal length.
    Plain,
    /// Tables made for each scan (T.81, K.2).
    Fitted,
}
