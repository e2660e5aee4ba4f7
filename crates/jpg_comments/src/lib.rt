//! Comments of a JPEG file: the text that rdjpgcom prints, and the segment that wrjpgcom writes
//! (T.81, B.2.4.5, the manuals of both commands in release 6b).
#![tactic(auto)]

mod comments;
mod insert;
pub mod laws;
mod printed;
mod push;
mod quiet;
mod segment;

pub use comments::Comments;
pub use insert::{Insert, LONGEST_COMMENT};
pub use jpg_base::{Bytes, Fault, FaultAt, Fed, Limits, NoMemory, Stop};
pub use printed::append_printed;
pub use segment::append_segment;
