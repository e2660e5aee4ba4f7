//! A preview of a file that is fed in pieces: its picture after the first scans (T.81, B.2.1, G.1.1.1).
#![tactic(auto)]

pub mod laws;
mod preview;
mod view;

pub use jpg_base::{Colour, Fault, FaultAt, Fed, Frame, Limits, Stop};
pub use jpg_file::{End, Picture};
pub use preview::Preview;
