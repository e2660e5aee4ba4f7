//! Marker segments: their contents parsed, and how they are written (T.81, B.2, JFIF 1.02).
#![tactic(auto)]

mod app;
mod colour;
mod frame;
mod huffmans;
mod interval;
mod kept;
mod quants;
mod scan;
mod seen;
mod segments;
mod whole;
mod writing;

pub use app::{App, read_app};
pub use colour::guess;
pub use frame::read_sof;
pub use huffmans::read_dht;
pub use interval::read_dri;
pub use jpg_base::{
    Bytes, Colour, Desk, Fault, FaultAt, Frame, Limits, NoMemory, Process, QuantTable, ScanHead,
    Stop, WriteFault,
};
pub use jpg_huff::{BitOut, DefinitionSet, TableSet};
pub use jpg_spec::{Copying, Jfif};
pub use kept::{Kept, KeptList, KeptRest};
pub use quants::{QuantSet, read_dqt};
pub use scan::{accepted_heads_are_of_their_frames, read_sos};
pub use seen::{is_header, is_kept};
pub use segments::{SegStep, SegmentReader};
pub use whole::{WholeSegment, fill_length, segment_at};
pub use writing::{OutHead, file_head, is_wide, write_segment};
