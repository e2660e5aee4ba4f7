//! The commands.

pub mod cjpeg;
pub mod cjpeg_encoding;
pub mod cjpeg_image;
pub mod djpeg;
pub mod djpeg_front;
pub mod djpeg_rows;
pub mod image_writer;
pub mod jpegtran;
pub mod jpgwork;
pub mod rdjpgcom;
pub mod work_image;
pub mod work_lines;
pub mod wrjpgcom;
