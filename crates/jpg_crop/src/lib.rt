//! A transformed picture cropped to an area, as a view of it (the manual of libjpeg-turbo's jpegtran, `-crop`).
#![tactic(auto)]

mod cropped;
mod cropped_block;
mod planning;

pub use cropped::Cropped;
pub use jpg_base::{Block, Frame};
pub use jpg_coefs::BlockView;
pub use jpg_file::{Picture, Plan};
pub use jpg_spec_move::Area;
pub use jpg_spec_write::PictureFault;
pub use jpg_transform::Job;
pub use planning::{CropJob, crop_plan};
