//! The scans of a file: scripts of scans that are written, and the history of scans that were read (T.81, B.2.3,
//! G.1.1.1).
#![tactic(auto)]

mod check;
mod entry;
mod entry_text;
mod laws;
mod numbers;
mod own;
mod progress;
mod restart;
mod script;
mod sent;
mod standing;
mod text_reader;

pub use entry::Entry;
pub use laws::{order_is_judged_first, texts_tell_one_script, wrong_texts_have_a_place};
pub use progress::Progress;
pub use restart::Restart;
pub use script::Script;
