//! What the words of the commands ask for, and what a command says at its end (the manuals of release 6b); and the
//! laws that need all layers.
#![tactic(auto)]

mod answers;
pub mod encoding_laws;
mod switch;
pub mod word_examples;
pub mod work_laws;

pub use answers::{Usage, UsageFault, Which, Why};
pub use switch::{Flag, Purpose, Setting};
