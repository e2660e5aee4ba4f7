//! A file read piece by piece (T.81, B.2.1).

pub mod ends;
pub mod file;
pub mod first_header;
pub mod items;
pub mod machine;
pub mod orders;
pub mod picture;
pub mod picture_taken;
pub mod pieces;
pub mod reader;
pub mod rows;
pub mod scan;
pub mod scan_history;
pub mod scan_start;
pub mod segment_state;
pub mod step;
pub mod strip_head;
pub mod window;
