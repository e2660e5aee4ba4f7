//! What the words of a call ask for: which command they name, its switches and their values, its files, and what is wrong
//! with them (the manuals of release 6b).
#![tactic(auto)]

mod areas;
mod cjpeg;
mod cjpeg_request;
mod cjpeg_values;
mod comments;
mod djpeg;
mod djpeg_request;
mod files;
mod jpegtran;
mod jpegtran_request;
mod jpgwork;
mod requests;
mod switches;
mod tools;
mod values;

pub use cjpeg_request::EncodeWords;
pub use cjpeg_values::Factors;
pub use comments::{CommentFrom, WriteWords};
pub use djpeg_request::ShowWords;
pub use files::{Files, WordsStop};
pub use jpegtran::ScriptFrom;
pub use jpegtran_request::TransformWords;
pub use tools::{Asked, format_asked, known_tool, read_words, tool_name};
