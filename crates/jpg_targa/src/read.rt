//! Targa files read piece by piece.

pub mod given;
pub mod head;
pub mod laws;
pub mod make;
pub mod reader;
pub mod samples;
pub mod work;
