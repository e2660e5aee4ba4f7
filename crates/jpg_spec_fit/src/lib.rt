//! Huffman tables made for how often each symbol is sent (T.81, Annex K.2): their definition, and laws by which they are
//! valid and have a code for each symbol that is sent.
#![tactic(auto)]

pub mod fitted_examples;
pub mod fitted_laws;
