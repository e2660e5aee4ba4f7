//! Progressive scans: their symbols counted, and their data written (T.81, G.1.2).
#![tactic(auto)]

mod ac;
mod band;
mod bands;
mod count;
mod dc;
mod item;
mod numbers;
mod put;
mod write;

pub use count::count_scan;
pub use jpg_huff::SymbolCounts;
pub use write::write_scan;
