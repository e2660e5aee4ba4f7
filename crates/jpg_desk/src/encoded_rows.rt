//! The file of an encoded image whose one scan is in memory (T.81, B.2.1).
ghost use Rattle.std.specs.Prelude.{◌≡◌};
ghost use Rattle.jpg_spec.specs.Geometry.{Frame as FrameOf};
ghost use Rattle.jpg_spec.specs.Scan.{Blocks};
ghost use Rattle.jpg_desk.specs.EncodedRows.{HasData, WritesRows};
ghost use Rattle.jpg_desk.specs.Stays.{OnlyWorks};

use crate::moved::{Wrote, create_output};
use jpg_base::{Bytes, Desk, Name, Put};
use jpg_color::EncodedImage;
use jpg_file::{Plan, SoleScan, write_sole};
use jpg_markers::KeptList;
use std::alloc::Global;
use std::boxed::Box;

/// How a file of one scan is written.
#[derive(Drop)]
pub struct OneScan {
    /// Its head, its script, and what is asked for; boxed, so that it takes no stack while the image is read.
    pub plan: Box<Plan, Global>,
    /// The kept markers.
    pub kept: KeptList,
    /// What the scan is written with.
    pub scan: Box<SoleScan, Global>,
}

/// The file of an encoded image.
#[derive(Drop)]
pub struct EncodedRows {
    /// How the file is written.
    pub file: OneScan,
    /// The data of its scan.
    pub bytes: Bytes,
}

/// An encoded image.
#[derive(Drop)]
pub enum EncodedPicture {
    /// With its planes.
    Planes(EncodedImage),
    /// With the data of its one scan.
    Rows(EncodedRows),
}

/// Creates the output, and writes the file to it.
#[inline(never)]
pub fn write_rows<D: Desk>(rows: &EncodedRows, output: &Name, desk: &mut D) -> Wrote
    requires { (f : FrameOf) × (blocks : Blocks) × HasData rows.now f blocks }
    ensures kept { OnlyWorks (D.state desk.old) (D.state desk.new) }
    ensures left { (D.state desk.new).left ≡ (D.state desk.old).left }
    ensures output { WritesRows output.now rows.now (D.state desk.old) result (D.state desk.new) }
{
    match create_output(output, desk) {
        Put::Failed => Wrote::OpenFault,
        Put::Done => match write_sole(
            rows.file.plan.as_ref(),
            &rows.file.kept,
            rows.file.scan.as_ref(),
            rows.bytes.as_slice(),
            desk,
        ) {
            Ok(()) => Wrote::Done,
            Err(_) => Wrote::WriteFault,
        },
    }
}
