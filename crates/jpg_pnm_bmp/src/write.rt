//! Images written row by row.

pub mod bmp;
pub mod bmp_header;
pub mod bmp_row;
pub mod end;
pub mod file_row;
pub mod pnm;
pub mod short;
