//! Images as Targa files: 8 bits per pixel for gray, 24 for colours; raw, with rows from the top.
ghost use Rattle.std.specs.Prelude.{◌≡◌, ◌≤◌, ◌*◌};
ghost use Rattle.jpg_spec_image.specs.ImageText.{targa_header};
ghost use Rattle.jpg_spec_image.specs.declared.image.EndKind.TheVariants as kind;
ghost use Rattle.jpg_pnm_bmp.specs.EndState.{IsImageInfo, new_end, info_given};

use jpg_base::{Bytes, NoMemory};
use jpg_pnm_bmp::{Finish, ImageEnd, file_row};
use jpg_spec_image::{EndKind, ImageInfo, ImageKind};
use std::alloc::Global;

/// Makes a Targa file: a header, then the rows in their order. It keeps none, but has memory for one row, in which it
/// exchanges red and blue.
#[derive(Drop)]
pub struct TargaEnd {
    // The size and the colours of the image, once it began.
    info: Option<ImageInfo>,
    // How many rows were taken.
    taken: u32,
    // `finish` was called.
    done: bool,
    // Memory for one row.
    line: Vec<u8>,
    ghost low: { (info_given info).height ≤ 65500 },
    ghost wide: { (info_given info).height ≤ 65500 * (info_given info).width },
}

// The header of 18 bytes: raw colours or raw grays, with rows from the top.
#[tactic(auto, unfolding(jpg_spec_image::specs::ImageText::targa_header))]
fn header_of(info: &ImageInfo) -> [u8; 18]
    requires { IsImageInfo info.now }
    ensures { result ≡ targa_header info.now }
{
    let wide = (info.width as u16).to_le_bytes();
    let high = (info.height as u16).to_le_bytes();
    let (code, depth) = match info.kind {
        ImageKind::Gray => (3, 8),
        ImageKind::Rgb => (2, 24),
    };
    [
        0, 0, code, 0, 0, 0, 0, 0, 0, 0, 0, 0, wide[0], wide[1], high[0], high[1], depth, 32,
    ]
}

impl TargaEnd {
    ghost use Rattle.jpg_targa.specs.TargaState.{targa_state};

    /// A writer of no image yet. It takes no memory yet.
    pub fn new(alloc: Global) -> TargaEnd
        ensures { targa_state result ≡ new_end kind.Targa }
    {
        TargaEnd {
            info: None,
            taken: 0,
            done: false,
            line: Vec::new(alloc),
        }
    }
}

impl ImageEnd for TargaEnd {
    ghost use Rattle.jpg_targa.specs.TargaState.{targa_state};

    ghost progress = { targa_state };

    fn kind(&self) -> EndKind {
        EndKind::Targa
    }

    fn start(&mut self, info: &ImageInfo, out: &mut Bytes) -> Result<(), NoMemory> {
        let header = header_of(info);
        match out.push_all(&header) {
            Ok(()) => {
                self.info = Some(*info);
                Ok(())
            }
            Err(fault) => Err(fault),
        }
    }

    fn row(&mut self, row: &[u8], out: &mut Bytes) -> Result<(), NoMemory> {
        let info = self.info.unwrap();
        match file_row(&mut self.line, info.kind, row) {
            Ok(()) => {}
            Err(fault) => return Err(fault),
        }
        match out.push_all(self.line.as_slice()) {
            Ok(()) => {
                self.taken += 1;
                Ok(())
            }
            Err(fault) => Err(fault),
        }
    }

    fn finish(&mut self, out: &mut Bytes) -> Result<Finish, NoMemory> {
        let _ = out;
        self.done = true;
        Ok(Finish::Done)
    }
}
