//! How a file is written (T.81, the manuals of release 6b): scripts of scans, the elements and tables that the writer
//! chooses, the text of the file, and the laws by which it means its picture.
#![tactic(auto)]

pub mod file_examples;
mod huffman;
mod picture_fault;
pub mod scan_text_laws;
pub mod script_examples;
pub mod script_laws;
pub mod segment_examples;
pub mod written_laws;

pub use huffman::Huffman;
pub use picture_fault::PictureFault;
