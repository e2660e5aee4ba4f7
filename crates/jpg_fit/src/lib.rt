//! Huffman tables made for counts of how often each symbol is sent (T.81, Annex K.2, Figures K.1 to K.4).
#![tactic(auto)]

mod adjust;
mod counted;
mod join;
mod least;
mod sizes;
mod sort;
mod table;

pub use table::fitted;
