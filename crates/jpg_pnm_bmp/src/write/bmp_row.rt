//! A row of a BMP file: blue before red, and a multiple of four bytes.
ghost use Rattle.std.specs.Prelude.{◌≡◌, ◌≤◌, length, OnOk};
ghost use Rattle.jpg_spec_image.specs.ImageText.{bmp_row};

use crate::write::bmp_header::padding_of;
use crate::write::file_row::file_row;
use jpg_base::NoMemory;
use jpg_spec_image::ImageInfo;

// Makes `part` this row of the image.
pub(crate) fn make_row(part: &mut Vec<u8>, info: &ImageInfo, row: &[u8]) -> Result<(), NoMemory>
    requires { length row.now ≤ 196500 }
    ensures { OnOk result (part.new.items ≡ bmp_row info.now row.now) }
{
    match file_row(part, info.kind, row) {
        Ok(()) => {}
        Err(fault) => return Err(fault),
    }
    let whole = row.len() + padding_of(row.len() as u32) as usize;
    match part.resize(whole, 0) {
        Ok(()) => Ok(()),
        Err(_) => Err(NoMemory),
    }
}
