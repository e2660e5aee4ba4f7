//! Images as PNM files: P5 for gray, P6 for colours.
ghost use Rattle.std.specs.Prelude.{◌≡◌, ◌≤◌, ◌*◌, length};
ghost use Rattle.jpg_spec_image.specs.ImageText.{pnm_header};
ghost use Rattle.jpg_spec_image.specs.declared.image.EndKind.TheVariants as kind;
ghost use Rattle.jpg_pnm_bmp.specs.EndState.{IsImageInfo, new_end, info_given};

use crate::write::short::Short;
use crate::{Finish, ImageEnd};
use jpg_base::{Bytes, NoMemory};
use jpg_spec_image::{EndKind, ImageInfo, ImageKind};

/// Makes a PNM file: a header, then the rows in their order. It keeps none, and asks for no memory of its own.
#[derive(Drop)]
pub struct PnmEnd {
    info: Option<ImageInfo>,
    taken: u32,
    done: bool,
    ghost low: { (info_given info).height ≤ 65500 },
    ghost wide: { (info_given info).height ≤ 65500 * (info_given info).width },
}

#[tactic(auto, unfolding(jpg_spec_image::specs::ImageText::pnm_header))]
fn header_of(info: &ImageInfo) -> Short
    requires { IsImageInfo info.now }
    ensures { result ≡ pnm_header info.now }
{
    let mut text = Short::new();
    text.put_text("\n255\n");
    text.put_number(info.height);
    text.put_text(" ");
    text.put_number(info.width);
    match info.kind {
        ImageKind::Gray => text.put_text("P5\n"),
        ImageKind::Rgb => text.put_text("P6\n"),
    }
    text
}

impl PnmEnd {
    ghost use Rattle.jpg_pnm_bmp.specs.Ends.{pnm_state};

    /// A writer of no image yet.
    pub fn new() -> PnmEnd
        ensures { pnm_state result ≡ new_end kind.Pnm }
    {
        PnmEnd {
            info: None,
            taken: 0,
            done: false,
        }
    }
}

impl ImageEnd for PnmEnd {
    ghost use Rattle.jpg_pnm_bmp.specs.Ends.{pnm_state};

    ghost progress = { pnm_state };

    fn kind(&self) -> EndKind {
        EndKind::Pnm
    }

    fn start(&mut self, info: &ImageInfo, out: &mut Bytes) -> Result<(), NoMemory> {
        let header = header_of(info);
        match out.push_all(header.as_slice()) {
            Ok(()) => {
                self.info = Some(*info);
                Ok(())
            }
            Err(fault) => Err(fault),
        }
    }

    fn row(&mut self, row: &[u8], out: &mut Bytes) -> Result<(), NoMemory> {
        match out.push_all(row) {
            Ok(()) => {
                self.taken += 1;
                Ok(())
            }
            Err(fault) => Err(fault),
        }
    }

    fn finish(&mut self, out: &mut Bytes) -> Result<Finish, NoMemory> {
        let _ = out;
        self.done = true;
        Ok(Finish::Done)
    }
}
