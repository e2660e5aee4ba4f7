//! The picture of an input, read piece by piece (T.81, B.2.1).
ghost use Rattle.std.specs.Prelude.{◌≡◌, ◌≤◌, List, ℕ, length, true, false};
ghost use Rattle.jpg_spec.specs.Segments.{standard_limits};
ghost use Rattle.jpg_file.specs.Read.File.{keeping_of};
ghost use Rattle.jpg_file.specs.Read.ReadFile.{IsPlain};
ghost use Rattle.jpg_desk.specs.Stays.{Keeps, OnlyReads};
ghost use Rattle.jpg_desk.specs.Judging.{done_as};
ghost use Rattle.jpg_desk.specs.Pump.{of_reader};
ghost use Rattle.jpg_desk.specs.ReadPicture.{AfterPictureEnd, EndDone, EndsReading, HasFed, PictureRead, ReadsPictureBytes, StepDone, picture_reader, step_unless, unwanted_in, Coefficients, Image};

use crate::pieces::{PieceSink, pump, why_stopped};
use jpg_base::{Colour, Desk, Fed, Frame, Name, Put};
use jpg_color::admits;
use jpg_file::{End, Orders, Picture, Reader};
use jpg_spec::{Copying, FaultAt, Limits};
use jpg_spec_words::{Which, Why};
use std::alloc::Global;

/// The picture of the file of this name, with the markers that may be passed on, and its blocks stored in these orders;
/// and if the file ended early, after how many bytes. The file is read in pieces of at most 16,384 bytes, up to its end or
/// the one that completes it or reveals a fault.
#[tactic(auto, using(crate::proofs::PictureTaken::meaning_read))]
#[inline(never)]
pub fn read_picture<D: Desk>(
    alloc: Global,
    name: &Name,
    copying: Copying,
    orders: Orders,
    desk: &mut D,
) -> Result<(Picture, Option<u64>), Why>
    ensures kept { Keeps (D.state desk.old) (D.state desk.new) }
    ensures read { PictureRead Coefficients copying name.now (D.state desk.old) result (D.state desk.new) }
{
    match desk.open(name) {
        Put::Failed => Err(Why::OpenFault(Which::Input)),
        Put::Done => take_picture(alloc, copying, orders, desk),
    }
}

// The picture of the open input.
fn take_picture<D: Desk>(
    alloc: Global,
    copying: Copying,
    orders: Orders,
    desk: &mut D,
) -> Result<(Picture, Option<u64>), Why>
    requires open { (D.state desk.old).input_open ≡ true }
    ensures kept { OnlyReads (D.state desk.old) (D.state desk.new) }
    ensures read { EndsReading Coefficients copying (D.state desk.old) result (D.state desk.new) }
{
    let mut reader = Reader::in_order(alloc, Limits::standard(), copying, orders);
    match pump(desk, &mut reader) {
        Ok(early) => Ok((reader.take(), early)),
        Err(why) => Err(why),
    }
}

impl<D: Desk> PieceSink<D> for Reader {
    ghost kind = { of_reader picture_reader };

    fn most(&self) -> u64 {
        Limits::standard().input
    }

    fn feed(&mut self, piece: &[u8], _desk: &mut D) -> Result<bool, Why> {
        take_piece(self, piece)
    }

    fn end(&mut self, _desk: &mut D) -> Result<Option<u64>, Why> {
        at_end(self)
    }
}

/// The result where the complete output was written.
pub fn done_as(early: Option<u64>) -> Why
    ensures { result ≡ done_as early }
{
    match early {
        None => Why::Done,
        Some(at) => Why::Warned(at),
    }
}

/// Why the picture can't be displayed, once the first scan header was read.
pub fn not_shown(head: Option<(Frame, Colour, u64)>, gray: bool) -> Option<FaultAt>
    ensures { result ≡ unwanted_in (Image gray) head }
{
    match head {
        None => None,
        Some((frame, colour, at)) => match admits(&frame, colour, gray) {
            Ok(_) => None,
            Err(fault) => Some(FaultAt { fault, at }),
        },
    }
}

// The result of a piece, where nothing is unwanted.
pub(crate) fn step_unless(fault: Option<FaultAt>, answer: Result<bool, Why>) -> Result<bool, Why>
    ensures { result ≡ step_unless fault answer }
{
    match fault {
        Some(fault) => Err(Why::Refused(fault)),
        None => answer,
    }
}

// Takes a piece. Returns whether the file is complete.
fn take_piece(reader: &mut Reader, piece: &[u8]) -> Result<bool, Why>
    requires more { reader.old.done ≡ false }
    requires limits { reader.old.limits ≡ standard_limits }
    requires short { length piece.now ≤ 65536 }
    requires plain { IsPlain reader.old }
    ensures taken { ReadsPictureBytes Coefficients reader.old piece.now result reader.new }
    ensures done { StepDone result reader.new }
    ensures limits { reader.new.limits ≡ standard_limits }
    ensures keeping { keeping_of reader.new.file ≡ keeping_of reader.old.file }
    ensures plain { IsPlain reader.new }
{
    match reader.feed(piece) {
        Ok(Fed::More) => Ok(false),
        Ok(Fed::Done { .. }) => Ok(true),
        Err(stop) => Err(why_stopped(stop)),
    }
}

// The input ends here. Returns after how many bytes, if there is a picture.
fn at_end(reader: &mut Reader) -> Result<Option<u64>, Why>
    requires more { reader.old.done ≡ false }
    requires limits { reader.old.limits ≡ standard_limits }
    requires plain { IsPlain reader.old }
    ensures ended { (bytes : List ℕ) → HasFed Coefficients reader.old bytes → AfterPictureEnd Coefficients bytes result reader.new }
    ensures done { EndDone result reader.new }
    ensures limits { reader.new.limits ≡ standard_limits }
    ensures keeping { keeping_of reader.new.file ≡ keeping_of reader.old.file }
    ensures plain { IsPlain reader.new }
{
    match reader.end() {
        End::Early(at) => Ok(Some(at)),
        End::Stop(stop) => Err(why_stopped(stop)),
    }
}
