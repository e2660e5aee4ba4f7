//! A picture read, and decoded to an image (the manual of djpeg).
ghost use Rattle.std.specs.Prelude.{◌≡◌, ◌≤◌, None, true, false, length, Option, ℕ};
ghost use Rattle.jpg_base.specs.Desk.{DeskState, Opens};
ghost use Rattle.jpg_base.specs.declared.names.Put.TheVariants as put;
ghost use Rattle.jpg_spec_image.specs.Pixels.{out_fault};
ghost use Rattle.jpg_spec.specs.Segments.{standard_limits};
ghost use Rattle.jpg_file.specs.Read.PictureRead.{picture_meaning};
ghost use Rattle.jpg_file.specs.Read.ReadFile.{head_seen};
ghost use Rattle.jpg_pnm_bmp.specs.EndState.{new_end};
ghost use Rattle.jpg_desk.specs.ReadPicture.{unwanted_in, Image};
ghost use Rattle.jpg_cli.specs.Tools.Showing.{AfterPicture, Shown, shown_as, showing_view};
ghost use Rattle.jpg_cli.specs.Tools.ShowingRows.{IsOpened, TakesFirst, show_kind, step_of};
ghost use Rattle.jpg_desk.specs.Stays.{OnlyWorks};

use crate::tools::djpeg_rows::{
    FedPiece, begin_image, draw_next, draw_piece, finish_early, why_of,
};
use jpg_base::{Desk, Put, Stop};
use jpg_color::{StripImage, decode_rows};
use jpg_desk::{PieceSink, ended_as, not_shown, pump, why_stopped};
use jpg_file::{End, FedRow, Picture, Reader};
use jpg_pnm_bmp::ImageEnd;
use jpg_spec::{FaultAt, Limits};
use jpg_spec_words::{Which, Why};
use jpg_words::ShowWords;
use std::alloc::Global;

// The result of a piece, before rows are read.
#[derive(Clone, Copy)]
enum FirstStep {
    More,
    Whole,
    // The MCU rows of a scan begin in the piece, for which this is the reader's result.
    Rows(Result<FedRow, Stop>),
    Ended(Why),
}

/// Writes the image of the input to the output, in the format of `end`. The input is read in pieces of at most 16,384
/// bytes, up to the one that completes it, reveals a fault or a picture that can't be displayed. A sequential file
/// whose first scan has all components is written while it is read, so its output may not have the input's name. For
/// other files the output is created when the picture is complete.
pub fn show_picture<D: Desk>(
    alloc: Global,
    words: &ShowWords,
    end: &mut Box<dyn ImageEnd>,
    desk: &mut D,
) -> Why
    requires { progress end.old ≡ new_end words.now.kind }
    ensures kept { OnlyWorks (D.state desk.old) (D.state desk.new) }
    ensures shown { Shown (showing_view words.now) (D.state desk.old) result (D.state desk.new) }
{
    match desk.open(&words.files.input) {
        Put::Failed => Why::OpenFault(Which::Input),
        Put::Done => show_input(alloc, words, end, desk),
    }
}

// Writes the image of the open input to the output.
#[inline(never)]
fn show_input<D: Desk>(
    alloc: Global,
    words: &ShowWords,
    end: &mut Box<dyn ImageEnd>,
    desk: &mut D,
) -> Why
    requires open { (D.state desk.old).input_open ≡ true }
    requires end { progress end.old ≡ new_end words.now.kind }
    requires opened { IsOpened words.now.files.input (D.state desk.old) }
    ensures kept { OnlyWorks (D.state desk.old) (D.state desk.new) }
    ensures shown { (old : DeskState) → Opens old words.now.files.input put.Done (D.state desk.old) → Shown (showing_view words.now) old result (D.state desk.new) }
{
    let mut sink = ShowSink {
        alloc,
        words,
        reader: Reader::strips(alloc, Limits::standard()),
        image: None,
        end,
    };
    ended_as(pump(desk, &mut sink))
}

// What takes the pieces of an input whose image is written.
#[derive(Drop)]
struct ShowSink<'a> {
    // Where memory comes from.
    alloc: Global,
    // What is asked for.
    words: &'a ShowWords,
    // What the file is read by.
    reader: Reader,
    // The image, once MCU rows are read.
    image: Option<StripImage>,
    // Its writer.
    end: &'a mut Box<dyn ImageEnd>,
}

impl<'a, D: Desk> PieceSink<D> for ShowSink<'a> {
    ghost kind = { show_kind (λ s. record { words = s.words.now; reader = s.reader; image = s.image; end = (ImageEnd-box s.end.now).progress s.end.now.value }) };

    #[tactic(auto, using(crate::proofs::Pieces::InputMost::input_most))]
    fn most(&self) -> u64 {
        Limits::standard().input
    }

    fn feed(&mut self, piece: &[u8], desk: &mut D) -> Result<bool, Why> {
        if let Some(image) = &mut self.image {
            return draw_next(&mut self.reader, image, piece, self.end, desk);
        }
        match take_first(&mut self.reader, self.words.gray, piece) {
            FirstStep::More => Ok(false),
            FirstStep::Whole => {
                match write_image(self.alloc, &self.reader.take(), self.words, self.end, desk) {
                    Ok(()) => Ok(true),
                    Err(why) => Err(why),
                }
            }
            FirstStep::Rows(answer) => {
                match begin_image(self.alloc, &self.reader, self.words, self.end, desk) {
                    Ok(image) => {
                        let mut image = image;
                        let fed = FedPiece { piece, answer };
                        let drawn = draw_piece(&mut self.reader, &mut image, fed, self.end, desk);
                        self.image = Some(image);
                        drawn
                    }
                    Err(why) => Err(why),
                }
            }
            FirstStep::Ended(why) => Err(why),
        }
    }

    fn end(&mut self, desk: &mut D) -> Result<Option<u64>, Why> {
        let count = match self.reader.end() {
            End::Early(count) => count,
            End::Stop(stop) => return Err(why_stopped(stop)),
        };
        if let Some(image) = &mut self.image {
            return match finish_early(&self.reader, image, self.end, desk) {
                Ok(()) => Ok(Some(count)),
                Err(stop) => Err(why_of(Err(stop))),
            };
        }
        match write_image(self.alloc, &self.reader.take(), self.words, self.end, desk) {
            Ok(()) => Ok(Some(count)),
            Err(why) => Err(why),
        }
    }
}

// Takes a piece, before rows are read.
fn take_first(reader: &mut Reader, gray: bool, piece: &[u8]) -> FirstStep
    requires more { reader.old.done ≡ false }
    requires short { length piece.now ≤ 16384 }
    requires limits { reader.old.limits ≡ standard_limits }
    requires by_row { reader.old.by_row ≡ true }
    ensures taken { TakesFirst gray reader.old piece.now result reader.new }
    ensures limits { reader.new.limits ≡ standard_limits }
    ensures by_row { reader.new.by_row ≡ true }
{
    let answer = reader.feed_row(piece);
    if let Some(fault) = unwanted(reader, gray) {
        return FirstStep::Ended(Why::Refused(fault));
    }
    if reader.strip().is_some() {
        return FirstStep::Rows(answer);
    }
    step_of(answer)
}

// What follows from the reader's result, where no rows are read.
fn step_of(answer: Result<FedRow, Stop>) -> FirstStep
    ensures { result ≡ step_of answer }
{
    match answer {
        Ok(FedRow::More) => FirstStep::More,
        Ok(FedRow::Row { .. }) => FirstStep::More,
        Ok(FedRow::Done { .. }) => FirstStep::Whole,
        Err(Stop::Fault(fault)) => FirstStep::Ended(Why::Refused(fault)),
        Err(Stop::NoMemory) => FirstStep::Ended(Why::NoMemory),
    }
}

// Why the picture can't be displayed, once the first scan header was read.
fn unwanted(reader: &Reader, gray: bool) -> Option<FaultAt>
    ensures { result ≡ unwanted_in (Image gray) (head_seen reader.now) }
{
    not_shown(reader.head(), gray)
}

/// Creates the output, and writes the image to it; or returns why not.
pub(crate) fn write_image<D: Desk>(
    alloc: Global,
    picture: &Picture,
    words: &ShowWords,
    end: &mut Box<dyn ImageEnd>,
    desk: &mut D,
) -> Result<(), Why>
    requires admitted { out_fault words.now.gray (picture_meaning picture.now) ≡ None }
    requires end { progress end.old ≡ new_end words.now.kind }
    ensures kept { OnlyWorks (D.state desk.old) (D.state desk.new) }
    ensures left { (D.state desk.new).left ≡ (D.state desk.old).left }
    ensures wrote { (early : Option ℕ) → AfterPicture words.now picture.now early (D.state desk.old) (shown_as result early) (D.state desk.new) }
{
    match desk.create(&words.files.output) {
        Put::Failed => Err(Why::OpenFault(Which::Output)),
        Put::Done => match decode_rows(alloc, picture, words.gray, words.smooth, end, desk) {
            Ok(()) => Ok(()),
            Err(stop) => Err(why_of(Err(stop))),
        },
    }
}
