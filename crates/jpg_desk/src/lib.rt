//! What a command reads from a desk and writes to it: files, scripts, tables, comments, pictures, images.
#![tactic(auto)]

mod comment;
mod encoded_rows;
mod file;
mod front;
mod image;
mod image_samples;
mod image_source;
mod moved;
mod moved_rows;
mod picture;
mod pieces;
mod row_picture;
mod rows_read;
mod rows_to;
mod script;
mod tables;

pub use comment::take_comment;
pub use encoded_rows::{EncodedPicture, EncodedRows, OneScan, write_rows};
pub use file::read_within;
pub use front::read_front;
pub use image::{read_rest, read_source};
pub use image_samples::ImageSamples;
pub use image_source::ImageSource;
pub use moved::{Wrote, write_moved, write_view};
pub use moved_rows::{MovedInput, read_moved, write_input};
pub use picture::{done_as, not_shown, read_picture};
pub use pieces::{PieceSink, ended_as, pump, pump_on, why_stopped};
pub use row_picture::RowPicture;
pub use script::take_scans;
pub use tables::{Tables, take_tables};
