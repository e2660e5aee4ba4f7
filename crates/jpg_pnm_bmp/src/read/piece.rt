//! An image file that is read piece by piece, in any format.
ghost use Rattle.std.specs.Prelude.{◌≡◌, ◌+◌, ◌≤◌, [], false, length, Some, Err};
ghost use Rattle.jpg_base.specs.declared.stop.Stop.{Stop as Stopped};
ghost use Rattle.jpg_pnm_bmp.specs.Made.{Makes, image_by_parts};
ghost use Rattle.jpg_pnm_bmp.specs.Pieces.{PieceKind, HasAll, IsGoing, TakesSome, MakesWhole, Reads, GoesOn, AsksRead};

use crate::read::pixels::Image;
use jpg_base::{Bytes, FaultAt, NoMemory, Stop};
use jpg_spec::Fault;
use jpg_spec_image::{ImageInfo, ImageKind};
use std::alloc::Global;

/// Whether more bytes are needed, or the image is complete.
#[derive(Clone, Copy, Debug, PartialEq, Eq)]
pub enum Fed2 {
    More,
    Done,
}

/// The result of a byte, or of some bytes.
#[derive(Clone, Copy)]
pub enum Answer {
    More,
    Whole,
    Fault(Fault),
    NoMemory,
}

/// How many bytes were taken, and their result.
#[derive(Clone, Copy)]
pub struct Moved {
    pub used: usize,
    pub answer: Answer,
}

/// The result of a byte.
pub fn one_byte(answer: Answer) -> Moved
    ensures { result ≡ record { used = 1; answer = answer } }
{
    Moved { used: 1, answer }
}

/// What reads the bytes of one format. Once the image is complete it is only made, and after a stop nothing more is done.
pub trait PieceWork {
    /// What its states mean.
    ghost kind: { PieceKind Self };

    /// Takes some bytes from the start of a piece, at least one, and none after one that makes the last sample known or
    /// reveals a fault. Memory is never asked for with a byte that reveals a fault.
    fn some(&mut self, piece: &[u8]) -> Moved
        requires some { 1 ≤ length piece.now }
        requires going { IsGoing kind self.old }
        ensures some { 1 ≤ result.used }
        ensures within { result.used ≤ length piece.now }
        ensures led { TakesSome kind self.old piece.now result self.new }
        ensures all { HasAll kind result.answer self.new };

    /// Makes the image whose last sample is known. Returns its numbers.
    fn make(&mut self, made: &mut Bytes) -> Result<ImageInfo, NoMemory>
        requires { kind.can self.old }
        ensures { Makes (kind.image self.old) result made.new };
}

/// A reader of an image file, by what reads its format.
#[derive(Drop)]
pub struct PieceReader<W> {
    /// The state after the bytes so far.
    pub work: W,
    /// The image, once it is complete.
    pub image: Image,
    /// How many bytes were taken.
    pub taken: u64,
    /// The image is complete.
    pub done: bool,
    /// Why the reader stopped, if it did.
    pub stop: Option<Stop>,
}

impl<W: PieceWork> PieceReader<W> {
    ghost use Rattle.jpg_pnm_bmp.specs.PiecesFed.{HasFed, CanGo, Feeds, Asks, KeepsDone};

    /// A reader that was given no bytes. It takes no memory yet.
    pub fn new(alloc: Global, work: W) -> PieceReader<W>
        requires { W.kind.stands [] work }
        ensures fed { HasFed W.kind [] result }
        ensures going { CanGo W.kind result }
        ensures done { result.done ≡ false }
        ensures taken { result.taken ≡ 0 }
    {
        PieceReader {
            work,
            image: Image {
                info: ImageInfo {
                    width: 0,
                    height: 0,
                    kind: ImageKind::Gray,
                    x_metre: 0,
                    y_metre: 0,
                },
                samples: Bytes::new(alloc),
            },
            taken: 0,
            done: false,
            stop: None,
        }
    }

    /// Takes a further piece of the file, of any length. Returns Done if the piece has the byte that makes the last
    /// sample known: bytes after it are left unread. Otherwise it returns the fault of the bytes so far, at the number
    /// of bytes up to the one that reveals it; or that there is no memory; otherwise More. After a stop it returns the
    /// same stop.
    pub fn feed(&mut self, piece: &[u8]) -> Result<Fed2, Stop>
        requires open { self.old.done ≡ false }
        requires room { self.old.taken + length piece.now ≤ 1099511627776 }
        requires going { CanGo W.kind self.old }
        ensures answered { Feeds W.kind self.old piece.now result self.new }
        ensures memory { Asks W.kind self.old piece.now result }
        ensures going { CanGo W.kind self.new }
        ensures done { KeepsDone result self.new }
        ensures stopped { (stop : Stopped) → result ≡ Err stop → self.new.stop ≡ Some stop }
        ensures again { (stop : Stopped) → self.old.stop ≡ Some stop → (result ≡ Err stop) × (self.new ≡ self.old) }
        ensures taken { self.new.taken ≤ self.old.taken + length piece.now }
    {
        if let Some(stop) = self.stop {
            return Err(stop);
        }
        let answer = read_piece(&mut self.work, self.taken, piece, &mut self.image);
        match answer {
            Ok(Fed2::More) => self.taken += piece.len() as u64,
            Ok(Fed2::Done) => self.done = true,
            Err(stop) => self.stop = Some(stop),
        }
        answer
    }
}

// Makes the image, which is complete.
pub(crate) fn make_whole<W: PieceWork>(work: &mut W, image: &mut Image) -> Result<Fed2, Stop>
    requires { W.kind.can work.old }
    ensures { MakesWhole (W.kind.image work.old) result (image_by_parts image.new.info image.new.samples) }
{
    match work.make(&mut image.samples) {
        Ok(info) => {
            image.info = info;
            Ok(Fed2::Done)
        }
        Err(_) => Err(Stop::NoMemory),
    }
}

// Reads a piece after `taken` bytes. Returns Done with the byte that makes the last sample known, or the fault of
// the bytes at its place, or NoMemory; otherwise More.
fn read_piece<W: PieceWork>(
    work: &mut W,
    taken: u64,
    piece: &[u8],
    image: &mut Image,
) -> Result<Fed2, Stop>
    requires room { taken + length piece.now ≤ 1099511627776 }
    requires going { IsGoing W.kind work.old }
    ensures led { Reads W.kind work.old taken piece.now result work.new (image_by_parts image.new.info image.new.samples) }
    ensures going { GoesOn W.kind result work.new }
    ensures memory { AsksRead W.kind work.old taken piece.now result }
{
    let mut at: usize = 0;
    while at < piece.len() {
        let step = work.some(&piece[at..]);
        at += step.used;
        match step.answer {
            Answer::More => {}
            Answer::Whole => return make_whole(work, image),
            Answer::Fault(fault) => {
                return Err(Stop::Fault(FaultAt {
                    fault,
                    at: taken + at as u64,
                }));
            }
            Answer::NoMemory => return Err(Stop::NoMemory),
        }
    }
    Ok(Fed2::More)
}
