//! The front of a picture's file, read piece by piece: its first scans (T.81, B.2.1, G.1.1.1).
ghost use Rattle.std.specs.Prelude.{◌≡◌, ◌≤◌, length, true, false};
ghost use Rattle.jpg_spec.specs.Segments.{standard_limits};
ghost use Rattle.jpg_file.specs.Read.File.{keeping_of};
ghost use Rattle.jpg_file.specs.Read.ReadFile.{head_seen};
ghost use Rattle.jpg_desk.specs.Stays.{Keeps, OnlyReads};
ghost use Rattle.jpg_desk.specs.Pump.{of_reader};
ghost use Rattle.jpg_desk.specs.ReadFront.{EndsFront, EndsInput, FrontRead, TakesFront, front_reader};
ghost use Rattle.jpg_desk.specs.ReadPicture.{EndDone, StepDone, step_unless, unwanted_in, Image};

use crate::picture::{not_shown, step_unless};
use crate::pieces::{PieceSink, pump, why_stopped};
use jpg_base::{Desk, Fed, Name, Put, Stop};
use jpg_file::{End, Picture};
use jpg_preview::Preview;
use jpg_spec::Limits;
use jpg_spec_words::{Which, Why};
use std::alloc::Global;

/// The picture of the file of this name after so many scans, or after the first later one with which each component is
/// in some scan; and if the file ended before, after how many bytes. The file is read in pieces of at most 16,384
/// bytes, up to its end, or the one with the marker after that scan, that completes the file, reveals a fault, or
/// completes a first scan header whose picture can't be displayed.
#[tactic(auto, using(crate::proofs::PictureTaken::meaning_read))]
#[inline(never)]
pub fn read_front<D: Desk>(
    alloc: Global,
    name: &Name,
    scans: u16,
    gray: bool,
    desk: &mut D,
) -> Result<(Picture, Option<u64>), Why>
    requires { 1 ≤ scans }
    ensures kept { Keeps (D.state desk.old) (D.state desk.new) }
    ensures read { FrontRead scans gray name.now (D.state desk.old) result (D.state desk.new) }
{
    match desk.open(name) {
        Put::Failed => Err(Why::OpenFault(Which::Input)),
        Put::Done => take_front(alloc, scans, gray, desk),
    }
}

// The picture of the open input.
fn take_front<D: Desk>(
    alloc: Global,
    scans: u16,
    gray: bool,
    desk: &mut D,
) -> Result<(Picture, Option<u64>), Why>
    requires some { 1 ≤ scans }
    requires open { (D.state desk.old).input_open ≡ true }
    ensures kept { OnlyReads (D.state desk.old) (D.state desk.new) }
    ensures read { EndsFront scans gray (D.state desk.old) result (D.state desk.new) }
{
    let mut front = FrontSink {
        preview: Preview::new(alloc, Limits::standard(), scans),
        gray,
    };
    match pump(desk, &mut front) {
        Ok(early) => Ok((front.preview.take(), early)),
        Err(why) => Err(why),
    }
}

// A preview, and whether its image is asked for in grayscale.
#[derive(Drop)]
struct FrontSink {
    preview: Preview,
    gray: bool,
}

impl<D: Desk> PieceSink<D> for FrontSink {
    ghost kind = { of_reader front_reader };

    fn most(&self) -> u64 {
        Limits::standard().input
    }

    fn feed(&mut self, piece: &[u8], _desk: &mut D) -> Result<bool, Why> {
        take_piece(&mut self.preview, self.gray, piece)
    }

    fn end(&mut self, _desk: &mut D) -> Result<Option<u64>, Why> {
        at_end(&mut self.preview, self.gray)
    }
}

// Takes a piece. A picture that can't be displayed comes before a fault of the same piece, which is never earlier.
fn take_piece(preview: &mut Preview, gray: bool, piece: &[u8]) -> Result<bool, Why>
    requires more { preview.old.reader.done ≡ false }
    requires limits { preview.old.reader.limits ≡ standard_limits }
    requires short { length piece.now ≤ 65536 }
    ensures taken { TakesFront gray preview.old piece.now result preview.new }
    ensures done { StepDone result preview.new.reader }
    ensures limits { preview.new.reader.limits ≡ standard_limits }
    ensures keeping { keeping_of preview.new.reader.file ≡ keeping_of preview.old.reader.file }
    ensures scans { preview.new.scans ≡ preview.old.scans }
{
    match preview.feed(piece) {
        Ok(Fed::More) => if_shown(preview, gray, Ok(false)),
        Ok(Fed::Done { .. }) => if_shown(preview, gray, Ok(true)),
        Err(Stop::Fault(fault)) => { if_shown(preview, gray, Err(Why::Refused(fault))) }
        Err(Stop::NoMemory) => Err(Why::NoMemory),
    }
}

// The result of a piece, unless the first scan header reveals that the picture can't be displayed.
fn if_shown(preview: &Preview, gray: bool, answer: Result<bool, Why>) -> Result<bool, Why>
    ensures { result ≡ step_unless (unwanted_in (Image gray) (head_seen preview.now.reader)) answer }
{
    step_unless(not_shown(preview.head(), gray), answer)
}

// The input ends here. Returns after how many bytes, if there is a picture, which can be displayed.
fn at_end(preview: &mut Preview, gray: bool) -> Result<Option<u64>, Why>
    requires more { preview.old.reader.done ≡ false }
    requires limits { preview.old.reader.limits ≡ standard_limits }
    ensures ended { EndsInput gray preview.old result preview.new }
    ensures done { EndDone result preview.new.reader }
    ensures limits { preview.new.reader.limits ≡ standard_limits }
    ensures keeping { keeping_of preview.new.reader.file ≡ keeping_of preview.old.reader.file }
    ensures scans { preview.new.scans ≡ preview.old.scans }
{
    match preview.end() {
        End::Early(at) => Ok(Some(at)),
        End::Stop(stop) => Err(why_stopped(stop)),
    }
}
