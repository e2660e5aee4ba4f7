//! A picture whose MCU rows are decoded while it is read (the manual of djpeg).
ghost use Rattle.std.specs.Prelude.{◌≡◌, ◌<◌, ◌≤◌, ℕ, All, true};
ghost use Rattle.jpg_file.specs.Read.ReadFile.{EndsDoneRow};
ghost use Rattle.jpg_huff.specs.Out.{OnlyWrites};
ghost use Rattle.jpg_pnm_bmp.specs.EndState.{new_end};
ghost use Rattle.jpg_cli.specs.Tools.Showing.{showing_view};
ghost use Rattle.jpg_cli.specs.Tools.ShowingRows.{Begins, CanBegin, CanDrawPiece, CanEnd, CanEndInZeros, CanReadRows, Draws, DrawsNext, EndsInZeros, EndsShownRow, FinishesEarly, IsLastPiece, at_work, why_of};
ghost use Rattle.jpg_desk.specs.Stays.{OnlyWorks};

use jpg_base::{Desk, Put, Stop};
use jpg_color::{DecodeStop, StripImage};
use jpg_desk::why_stopped;
use jpg_file::{FedRow, Reader};
use jpg_pnm_bmp::ImageEnd;
use jpg_spec_words::{Which, Why};
use jpg_words::ShowWords;
use std::alloc::Global;

/// A piece of the input, and the reader's result for it.
#[derive(Clone, Copy)]
pub struct FedPiece<'a> {
    pub piece: &'a [u8],
    pub answer: Result<FedRow, Stop>,
}

/// Creates the output, and begins the image of a picture whose MCU rows began, in the format of `end`.
#[inline(never)]
pub fn begin_image<D: Desk>(
    alloc: Global,
    reader: &Reader,
    words: &ShowWords,
    end: &mut Box<dyn ImageEnd>,
    desk: &mut D,
) -> Result<StripImage, Why>
    requires end { progress end.old ≡ new_end words.now.kind }
    requires begun { CanBegin (showing_view words.now) reader.now (D.state desk.old) }
    ensures kept { OnlyWorks (D.state desk.old) (D.state desk.new) }
    ensures open { (D.state desk.new).input_open ≡ (D.state desk.old).input_open }
    ensures begins { Begins (showing_view words.now) reader.now (D.state desk.old) result (progress end.new) (D.state desk.new) }
{
    let Some(head) = reader.strip() else {
        unreachable!()
    };
    let Ok(mut image) = StripImage::new(alloc, &head, words.gray, words.smooth) else {
        return Err(Why::NoMemory);
    };
    match desk.create(&words.files.output) {
        Put::Failed => Err(Why::OpenFault(Which::Output)),
        Put::Done => match image.start(end) {
            Ok(()) => Ok(image),
            Err(_) => Err(Why::NoMemory),
        },
    }
}

/// Takes the next piece, and draws the MCU rows that are complete in it. Returns whether the image is complete.
pub fn draw_next<D: Desk>(
    reader: &mut Reader,
    image: &mut StripImage,
    piece: &[u8],
    end: &mut Box<dyn ImageEnd>,
    desk: &mut D,
) -> Result<bool, Why>
    requires reads { CanReadRows piece.now (at_work reader.old image.old (progress end.old) (D.state desk.old)) }
    requires by_row { reader.old.by_row ≡ true }
    ensures kept { OnlyWrites (D.state desk.old) (D.state desk.new) }
    ensures drawn { DrawsNext piece.now reader.old image.old (progress end.old) (D.state desk.old) result reader.new image.new (progress end.new) (D.state desk.new) }
    ensures by_row { reader.new.by_row ≡ true }
{
    are_bytes(piece);
    let answer = reader.feed_row(piece);
    draw_piece(reader, image, FedPiece { piece, answer }, end, desk)
}

// States, for proofs, that a piece has bytes. It does nothing.
#[tactic(auto, using(jpg_desk::proofs::PiecesRead::more_small))]
fn are_bytes(piece: &[u8])
    ensures { All (λ b. b < 256) piece.now }
{
    let _ = piece;
}

/// Draws the MCU rows that are complete in the piece. Returns whether the image is complete.
pub fn draw_piece<D: Desk>(
    reader: &mut Reader,
    image: &mut StripImage,
    fed: FedPiece<'_>,
    end: &mut Box<dyn ImageEnd>,
    desk: &mut D,
) -> Result<bool, Why>
    requires draws { CanDrawPiece fed.piece.now fed.answer (at_work reader.old image.old (progress end.old) (D.state desk.old)) }
    requires done { EndsDoneRow fed.answer reader.old }
    requires by_row { reader.old.by_row ≡ true }
    ensures kept { OnlyWrites (D.state desk.old) (D.state desk.new) }
    ensures drawn { Draws fed.entry reader.old image.old (progress end.old) (D.state desk.old) result reader.new image.new (progress end.new) (D.state desk.new) }
    ensures by_row { reader.new.by_row ≡ true }
{
    let mut answer = fed.answer;
    let mut rest = fed.piece;
    loop {
        let Some(used) = row_end(answer) else {
            return end_piece(
                reader,
                image,
                FedPiece {
                    piece: rest,
                    answer,
                },
                end,
                desk,
            );
        };
        if let Err(stop) = image.push(reader.row_coefs(), end, desk) {
            return Err(why_of(Err(stop)));
        }
        rest = &rest[used as usize..];
        answer = reader.feed_row(rest);
    }
}

// How many bytes of the piece complete a further MCU row, if one is complete.
fn row_end(answer: Result<FedRow, Stop>) -> Option<u64>
    ensures { EndsShownRow answer result }
{
    match answer {
        Ok(FedRow::Row { used }) => Some(used),
        Ok(FedRow::More) => None,
        Ok(FedRow::Done { .. }) => None,
        Err(_) => None,
    }
}

// Writes all text that waits, if no further MCU row is complete; and what follows the rows of a complete file.
fn end_piece<D: Desk>(
    reader: &Reader,
    image: &mut StripImage,
    fed: FedPiece<'_>,
    end: &mut Box<dyn ImageEnd>,
    desk: &mut D,
) -> Result<bool, Why>
    requires draws { CanDrawPiece fed.piece.now fed.answer (at_work reader.now image.old (progress end.old) (D.state desk.old)) }
    requires last { IsLastPiece fed.answer }
    ensures kept { OnlyWrites (D.state desk.old) (D.state desk.new) }
    ensures drawn { Draws fed.entry reader.now image.old (progress end.old) (D.state desk.old) result reader.now image.new (progress end.new) (D.state desk.new) }
{
    if let Err(stop) = image.flush(desk) {
        return Err(why_of(Err(stop)));
    }
    match fed.answer {
        Ok(row) => match row {
            FedRow::More => Ok(false),
            FedRow::Row { .. } => unreachable!(),
            FedRow::Done { .. } => match image.finish(end, desk) {
                Ok(()) => Ok(true),
                Err(stop) => Err(why_of(Err(stop))),
            },
        },
        Err(stop) => Err(why_stopped(stop)),
    }
}

/// Ends the image of a file that ended early: with the current MCU row, if one is missing, and zero rows after it.
pub fn finish_early<D: Desk>(
    reader: &Reader,
    image: &mut StripImage,
    end: &mut Box<dyn ImageEnd>,
    desk: &mut D,
) -> Result<(), DecodeStop>
    requires early { CanEnd (at_work reader.now image.old (progress end.old) (D.state desk.old)) }
    ensures kept { OnlyWrites (D.state desk.old) (D.state desk.new) }
    ensures shown { FinishesEarly (at_work reader.now image.old (progress end.old) (D.state desk.old)) result (D.state desk.new) }
{
    if image.is_whole() {
        return image.finish(end, desk);
    }
    match image.push(reader.row_coefs(), end, desk) {
        Ok(()) => finish_zeros(image, end, desk),
        Err(stop) => Err(stop),
    }
}

// Ends it with zero rows.
fn finish_zeros<D: Desk>(
    image: &mut StripImage,
    end: &mut Box<dyn ImageEnd>,
    desk: &mut D,
) -> Result<(), DecodeStop>
    requires zeros { CanEndInZeros image.old (progress end.old) (D.state desk.old) }
    ensures kept { OnlyWrites (D.state desk.old) (D.state desk.new) }
    ensures shown { EndsInZeros image.old (progress end.old) (D.state desk.old) result (D.state desk.new) }
{
    while !image.is_whole() {
        if let Err(stop) = image.push_zero(end, desk) {
            return Err(stop);
        }
    }
    image.finish(end, desk)
}

/// How a command ends whose image was written, or not.
pub fn why_of(answer: Result<(), DecodeStop>) -> Why
    ensures { result ≡ why_of answer }
{
    match answer {
        Ok(()) => Why::Done,
        Err(DecodeStop::NoMemory) => Why::NoMemory,
        Err(DecodeStop::WriteFault) => Why::WriteFault,
    }
}
