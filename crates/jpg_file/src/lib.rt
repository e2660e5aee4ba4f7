//! Complete files, read piece by piece and written (T.81, B.2.1).
#![tactic(auto)]

mod laws;
mod read;
mod write;

pub use jpg_base::{
    Colour, Desk, Fault, FaultAt, Fed, Frame, Limits, QuantTable, ScanHead, Stop, WriteFault,
};
pub use jpg_coefs::{BlockOrder, BlockView, Coefs};
pub use jpg_markers::{Jfif, Kept, KeptList, KeptRest, OutHead};
pub use jpg_scans::{Restart, Script};
pub use laws::{no_file_is_left_out, rows_are_due_in_order};
pub use read::ends::End;
pub use read::file::FileState;
pub use read::first_header::{Head, colours, head_of};
pub use read::items::Items;
pub use read::machine::ScanReader;
pub use read::orders::Orders;
pub use read::picture::Picture;
pub use read::picture_taken::picture_of;
pub use read::pieces::{FedRow, FedScan};
pub use read::reader::Reader;
pub use read::rows::RowWork;
pub use read::scan::InScan;
pub use read::scan_history::ScanHistory;
pub use read::scan_start::judge_head;
pub use read::segment_state::{SegmentState, SegmentTaken, lacks_table};
pub use read::step::Step;
pub use read::strip_head::StripHead;
pub use read::window::Window;
pub use write::scan::ScanDue;
pub use write::sole::{SoleScan, sole_scan, write_sole};
pub use write::{Plan, write_file};
