//! Images as BMP files: 8 bits per pixel with a palette of grays, or 24 bits for colours.
ghost use Rattle.std.specs.Prelude.{◌≡◌, ◌≤◌, ◌+◌, ◌*◌, OnOk};
ghost use Rattle.std.specs.Vec.{vec_capacity, vec_len};
ghost use Rattle.jpg_spec_image.specs.ImageText.{row_bytes};
ghost use Rattle.jpg_spec_image.specs.declared.image.EndKind.TheVariants as kind;
ghost use Rattle.jpg_pnm_bmp.specs.Bmp.{IsInBounds};
ghost use Rattle.jpg_pnm_bmp.specs.EndState.{CanFinish, new_end, next_part, info_given};

use crate::write::bmp_header::{bytes_of_row, make_header};
use crate::write::bmp_row::make_row;
use crate::{Finish, ImageEnd};
use jpg_base::{Bytes, NoMemory};
use jpg_spec_image::{EndKind, ImageInfo};
use std::alloc::Global;

/// Makes a BMP file. It keeps all rows, since the last is written first: nothing is appended before `finish`.
#[derive(Drop)]
pub struct BmpEnd {
    // The size and the colours of the image, once it began.
    info: Option<ImageInfo>,
    // How many rows were taken.
    taken: u32,
    // How many parts of the file were made: the header, and then rows from the last one on.
    parts: u32,
    // The rows that were taken.
    rows: Vec<u8>,
    // The last part that was made.
    part: Vec<u8>,
    ghost bounds: { IsInBounds (info_given info) },
    ghost wide: { (info_given info).height ≤ 65500 * (info_given info).width },
    ghost few: { taken ≤ (info_given info).height },
    ghost whole: { vec_len rows ≡ taken * row_bytes (info_given info) },
    ghost room: { (info_given info).height * row_bytes (info_given info) ≤ vec_capacity rows },
    ghost order: { parts ≤ taken + 1 },
}

impl BmpEnd {
    ghost use Rattle.jpg_pnm_bmp.specs.Ends.{bmp_state};

    /// A writer of no image yet. It takes no memory yet.
    pub fn new(alloc: Global) -> BmpEnd
        ensures { bmp_state result ≡ new_end kind.Bmp }
    {
        BmpEnd {
            info: None,
            taken: 0,
            parts: 0,
            rows: Vec::new(alloc),
            part: Vec::new(alloc),
        }
    }

    // Makes `part` the next part of the file.
    fn make_part(&mut self) -> Result<(), NoMemory>
        requires { CanFinish (bmp_state self.old) }
        ensures same { bmp_state self.new ≡ bmp_state self.old }
        ensures next { OnOk result (self.new.part.items ≡ next_part (bmp_state self.old)) }
    {
        let info = self.info.unwrap();
        if self.parts == 0 {
            return make_header(&mut self.part, &info);
        }
        let long = bytes_of_row(&info) as usize;
        let start = (self.taken - self.parts) as usize * long;
        make_row(&mut self.part, &info, &self.rows[start..start + long])
    }
}

impl ImageEnd for BmpEnd {
    ghost use Rattle.jpg_pnm_bmp.specs.Ends.{bmp_state};

    ghost progress = { bmp_state };

    fn kind(&self) -> EndKind {
        EndKind::Bmp
    }

    fn start(&mut self, info: &ImageInfo, out: &mut Bytes) -> Result<(), NoMemory> {
        let _ = out;
        let whole = info.height as usize * bytes_of_row(info) as usize;
        match self.rows.reserve_exact(whole) {
            Ok(()) => {
                self.info = Some(*info);
                Ok(())
            }
            Err(_) => Err(NoMemory),
        }
    }

    // `start` has asked for the memory.
    fn row(&mut self, row: &[u8], out: &mut Bytes) -> Result<(), NoMemory> {
        let _ = out;
        match self.rows.extend_from_slice(row) {
            Ok(()) => {
                self.taken += 1;
                Ok(())
            }
            Err(_) => Err(NoMemory),
        }
    }

    fn finish(&mut self, out: &mut Bytes) -> Result<Finish, NoMemory> {
        match self.make_part() {
            Ok(()) => {}
            Err(fault) => return Err(fault),
        }
        match out.push_all(self.part.as_slice()) {
            Ok(()) => {}
            Err(fault) => return Err(fault),
        }
        self.parts += 1;
        if self.parts > self.taken {
            return Ok(Finish::Done);
        }
        Ok(Finish::More)
    }
}
