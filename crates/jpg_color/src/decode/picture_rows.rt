//! All rows of a picture.
ghost use Rattle.std.specs.Prelude.{◌≡◌, ◌<◌, IfOk, None};
ghost use Rattle.jpg_spec_image.specs.Pixels.{out_fault};
ghost use Rattle.jpg_file.specs.Read.PictureRead.{picture_meaning};
ghost use Rattle.jpg_color.specs.PictureRows.{AdvancesRow, IsFirstRow};

use crate::decode::strips::Strips;
use jpg_base::NoMemory;
use jpg_coefs::Coefs;
use jpg_file::{Picture, StripHead};
use std::alloc::Global;
use std::marker::Model;

/// The rows of a picture, one after another, from its strips.
#[derive(Drop)]
pub(crate) struct PictureRows<'a> {
    strips: Strips,
    coefs: &'a Coefs,
}

impl<'a> Model for PictureRows<'a> {
    ghost use Rattle.jpg_color.specs.PictureRows.{RowsLeft, ArePictureRows};

    ghost Value = { RowsLeft };

    ghost view = { λ r. record { strips = r.strips; coefs = r.coefs.now } };

    ghost invariant = { λ r. ArePictureRows r.strips r.coefs.now };
}

impl<'a> PictureRows<'a> {
    /// Begins before the first row. Returns NoMemory if there is no memory, and takes none later.
    pub(crate) fn new(
        alloc: Global,
        picture: &'a Picture,
        gray: bool,
        smooth: bool,
    ) -> Result<PictureRows<'a>, NoMemory>
        requires { out_fault gray (picture_meaning picture.now) ≡ None }
        ensures { IfOk result (λ r. IsFirstRow picture.now gray smooth r) }
    {
        let head = StripHead::of(picture);
        let strips = Strips::new(alloc, &head, gray, smooth)?;
        Ok(PictureRows {
            strips,
            coefs: &picture.coefs,
        })
    }

    /// Goes to the next row, if there is one.
    pub(crate) fn advance(&mut self) -> bool
        ensures { AdvancesRow self.old result self.new }
    {
        self.strips.checked();
        while !self.strips.advance() {
            if self.strips.is_whole() {
                return false;
            }
            self.strips.push_from(self.coefs);
        }
        true
    }

    /// The current row.
    pub(crate) fn row(&self) -> &[u8]
        ensures { result.now ≡ self.now.strips.last }
    {
        self.strips.row()
    }
}
