//! Texts of numbers that are read byte by byte: scan scripts and quantization tables (release 6b's wizard.txt).
#![tactic(auto)]

mod texts;

pub use texts::{TextBytes, is_digit, is_space, read_text};
