//! Pictures transformed without loss: mirrored, transposed, rotated (the manual of jpegtran).
#![tactic(auto)]

mod applying;
mod choice;
mod frames;
mod moved;
mod moved_block;
mod moved_row;
mod moved_row_block;
mod planning;
mod row_mover;
mod signs;
mod table;
mod zero_row;

pub use applying::apply;
pub use choice::{Choice, Job, Scans};
pub use frames::with_sides;
pub use jpg_base::{Block, Frame, NoMemory};
pub use jpg_coefs::{BlockView, Coefs};
pub use jpg_file::{Orders, Picture, Restart, SoleScan, StripHead};
pub use jpg_scans::Script;
pub use jpg_spec::Copying;
pub use jpg_spec_move::Transform;
pub use jpg_spec_write::{Huffman, PictureFault};
pub use moved::Moved;
pub use planning::{counted, plan, plan_head, row_scan, script_due};
pub use row_mover::RowMover;
