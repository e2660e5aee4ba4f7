//! The image that jpgwork encodes, made from its number.
ghost use Rattle.std.specs.Prelude.{◌≡◌, ◌≤◌, ◌<◌, ◌++◌, OnOk, IfSome};
ghost use Rattle.jpg_spec_words.specs.Work.{work_image, work_info, work_pixel, work_row};
ghost use Rattle.jpg_color.specs.Encode.{image_view};

use jpg_base::{Bytes, NoMemory};
use jpg_pnm_bmp::Image;
use jpg_spec_image::{ImageInfo, ImageKind};
use std::alloc::Global;

// Red, green and blue of a pixel.
#[tactic(auto, unfolding(jpg_spec_words::specs::Work::work_pixel))]
fn pixel(x: u32, y: u32) -> [u8; 3]
    requires across { x < 65536 }
    requires down { y < 65536 }
    ensures { result ≡ work_pixel x y }
{
    let red = (7 * x + 3 * y) % 256;
    let green = x * y % 256;
    let blue = (40 * (x / 16) + 24 * (y / 16)) % 256;
    [red as u8, green as u8, blue as u8]
}

// Appends the pixels of a row.
#[tactic(auto, unfolding(jpg_spec_words::specs::Work::work_row))]
fn add_row(size: u16, y: u32, samples: &mut Bytes) -> Result<(), NoMemory>
    requires small { size ≤ 400 }
    requires down { y < 65536 }
    ensures { OnOk result (samples.new ≡ samples.old ++ work_row size y) }
{
    for x in 0..8 * u32::from(size) + 5 {
        match samples.push_all(&pixel(x, y)) {
            Ok(()) => {}
            Err(fault) => return Err(fault),
        }
    }
    Ok(())
}

/// The sides of the image of this number.
pub fn info_of(size: u16) -> ImageInfo
    requires { size ≤ 400 }
    ensures { result ≡ work_info size }
{
    ImageInfo {
        width: 8 * u32::from(size) + 5,
        height: 4 * u32::from(size) + 3,
        kind: ImageKind::Rgb,
        x_metre: 0,
        y_metre: 0,
    }
}

/// The image of this number; none if there is no memory.
pub fn image_of(alloc: Global, size: u16) -> Option<Image>
    requires { size ≤ 400 }
    ensures { IfSome result (λ image. image_view image ≡ work_image size) }
{
    let info = info_of(size);
    let mut samples = Bytes::new(alloc);
    for y in 0..info.height {
        match add_row(size, y, &mut samples) {
            Ok(()) => {}
            Err(_) => return None,
        }
    }
    Some(Image { info, samples })
}
