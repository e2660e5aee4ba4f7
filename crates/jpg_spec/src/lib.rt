//! What a JPEG file means, and which fault it shows first: the definitions that every contract of the suite
//! cites (ITU-T T.81, JFIF 1.02), and the laws that hold between them.
#![tactic(auto)]

pub mod early_examples;
pub mod examples;
mod fault;
pub mod file_meaning_laws;
mod frame;
pub mod header_laws;
pub mod history_examples;
mod jfif;
pub mod laws;
pub mod marker_examples;
pub mod marker_laws;
pub mod row_laws;

pub use fault::{Fault, FaultAt};
pub use frame::{Bounds, Colour, Component, Copying, Grid, Limits, Place, Process, ScanPart};
pub use jfif::Jfif;
