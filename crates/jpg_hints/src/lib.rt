//! What to write in place of words that a command refuses. It is only shown: no contract of the commands speaks of it.
#![tactic(auto)]

pub mod hint;
pub mod switches;
pub mod values;

pub use hint::{Hint, hint_for};
