//! What the rows of a picture are made from, in addition to blocks (T.81, B.2.2, B.2.4.1; JFIF 1.02).
ghost use Rattle.std.specs.Prelude.{◌≡◌, List};
ghost use Rattle.jpg_spec.specs.Markers.{Segment};
ghost use Rattle.jpg_spec.specs.declared.frame.Limits.{Limits as Bounds};
ghost use Rattle.jpg_file.specs.Read.Strips.{HoldsScan, TellsScan};
ghost use Rattle.jpg_file.specs.Read.PictureKept.{IsStripHead};

use crate::read::file::FileState;
use crate::read::first_header::colours;
use crate::read::picture::Picture;
use crate::read::picture_taken::tables_of;
use arrayvec::ArrayVec;
use jpg_base::{Frame, QuantTable};
use jpg_markers::Jfif;
use jpg_spec::Colour;

/// A picture except for its blocks.
#[derive(Drop)]
pub struct StripHead {
    /// Its frame header.
    pub frame: Frame,
    /// Its colours.
    pub colour: Colour,
    /// The quantisation table of each component.
    pub quants: ArrayVec<QuantTable, 4>,
    /// The last JFIF header.
    pub jfif: Jfif,
}

impl StripHead {
    /// What a picture has except for its blocks.
    pub fn of(picture: &Picture) -> StripHead
        ensures head { IsStripHead result }
        ensures frame { result.frame ≡ picture.now.frame }
        ensures colour { result.colour ≡ picture.now.colour }
        ensures quants { result.quants.items ≡ picture.now.quants.items }
        ensures jfif { result.jfif ≡ picture.now.jfif }
    {
        StripHead {
            frame: picture.frame.copy(),
            colour: picture.colour,
            quants: QuantTable::copied(picture.quants.as_slice()),
            jfif: picture.jfif,
        }
    }

    /// A copy.
    pub fn copy(&self) -> StripHead
        ensures frame { result.frame ≡ self.now.frame }
        ensures colour { result.colour ≡ self.now.colour }
        ensures quants { result.quants.items ≡ self.now.quants.items }
        ensures jfif { result.jfif ≡ self.now.jfif }
    {
        StripHead {
            frame: self.frame.copy(),
            colour: self.colour,
            quants: QuantTable::copied(self.quants.as_slice()),
            jfif: self.jfif,
        }
    }
}

/// What the picture whose first scan begins has except for its blocks, after the scan's header.
pub fn strip_of(file: &FileState) -> StripHead
    requires { (limits : Bounds) × (before : List Segment) × HoldsScan limits before file.now }
    ensures { TellsScan file.now result }
{
    let held = &file.items.held;
    let Some(frame) = &held.frame else {
        unreachable!();
    };
    let frame = frame.copy();
    frame.checked();
    let colour = colours(&frame, &held.jfif, &held.kept);
    let quants = tables_of(&frame, &file.begun);
    StripHead {
        frame,
        colour,
        quants,
        jfif: held.jfif,
    }
}
