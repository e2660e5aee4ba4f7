//! Rows of a text that try the suite: how they are read, and calls of the crates below the commands, each a row with the expected
//! answer, for the gate alone.
#![tactic(auto)]

mod answer;
mod base;
mod bytes;
mod images;
mod lines;
mod markers;
mod parts;
mod row;
mod scans;

pub use answer::Answer;
pub use bytes::{Named, spell};
pub use images::callers::sum_of;
pub use lines::{Report, Rows, take_lines};
pub use parts::Parts;
pub use row::{Row, decimal, large, number, value};
