//! An image file whose samples are given as they are read, in any format.
ghost use Rattle.std.specs.Prelude.{◌≡◌, ◌+◌, ◌≤◌, ℕ, List, None, false, length, Some, Err};
ghost use Rattle.jpg_base.specs.declared.stop.Stop.{Stop as Stopped};
ghost use Rattle.jpg_pnm_bmp.specs.Samples.{SampleKind, IsGiving, GivesSome, KeepsInfo, KeepsInfoTaken, TakesPiece, GoesOn, AsksTaken};

use crate::read::piece::{Answer, Fed2, Moved};
use jpg_base::{Bytes, FaultAt, Stop};

/// What reads the bytes of one format, and gives the image's samples as they become known. Once the image is complete, and
/// after a stop, nothing more is done.
pub trait SampleWork {
    /// What its states mean.
    ghost kind: { SampleKind Self };

    /// Takes some bytes from the start of a piece, at least one, and none after one that makes the last sample known or
    /// reveals a fault, and appends the samples that they make known. Memory is never asked for with a byte that reveals a
    /// fault.
    fn give(&mut self, piece: &[u8], made: &mut Bytes) -> Moved
        requires some { 1 ≤ length piece.now }
        requires going { IsGiving kind self.old }
        ensures some { 1 ≤ result.used }
        ensures within { result.used ≤ length piece.now }
        ensures given { GivesSome kind self.old piece.now made.old result self.new made.new }
        ensures info { KeepsInfo kind self.old result.answer self.new };
}

/// A reader of the samples of an image file, by what reads its format.
#[derive(Drop)]
pub struct SampleReader<W> {
    /// The state after the bytes so far.
    pub work: W,
    /// How many bytes were taken.
    pub taken: u64,
    /// All samples were given.
    pub done: bool,
    /// Why the reader stopped, if it did.
    pub stop: Option<Stop>,
}

impl<W: SampleWork> SampleReader<W> {
    ghost use Rattle.jpg_pnm_bmp.specs.Samples.{HasFed, CanGo, Feeds, Asks, KeepsDone, KeepsInfoFed};

    /// A reader after these bytes of a file, of which some samples were given.
    pub fn new(work: W, taken: u64) -> SampleReader<W>
        requires { IsGiving W.kind work }
        ensures fed { (bytes given : List ℕ) → W.kind.gives bytes given work → taken ≡ length bytes → HasFed W.kind bytes given result }
        ensures info { W.kind.info result.work ≡ W.kind.info work }
        ensures going { CanGo W.kind result }
        ensures done { result.done ≡ false }
        ensures taken { result.taken ≡ taken }
    {
        SampleReader {
            work,
            taken,
            done: false,
            stop: None,
        }
    }

    /// Takes a further piece of the file, of any length, and appends the samples that it makes known. Returns Done if the
    /// piece has the byte that makes the last sample known: bytes after it are left unread. Otherwise it returns the fault
    /// of the bytes so far, at the number of bytes up to the one that reveals it; or that there is no memory; otherwise
    /// More. After a stop it returns the same stop.
    pub fn feed(&mut self, piece: &[u8], made: &mut Bytes) -> Result<Fed2, Stop>
        requires open { self.old.done ≡ false }
        requires room { self.old.taken + length piece.now ≤ 1099511627776 }
        requires going { CanGo W.kind self.old }
        ensures answered { Feeds W.kind self.old piece.now made.old result self.new made.new }
        ensures info { KeepsInfoFed W.kind self.old result self.new }
        ensures memory { Asks W.kind self.old piece.now result }
        ensures going { CanGo W.kind self.new }
        ensures done { KeepsDone result self.new }
        ensures stopped { (stop : Stopped) → result ≡ Err stop → self.new.stop ≡ Some stop }
        ensures again { (stop : Stopped) → self.old.stop ≡ Some stop → (result ≡ Err stop) × (self.new ≡ self.old) }
        ensures taken { self.new.taken ≤ self.old.taken + length piece.now }
    {
        if let Some(stop) = self.stop {
            return Err(stop);
        }
        let answer = give_piece(&mut self.work, self.taken, piece, made);
        match answer {
            Ok(Fed2::More) => self.taken += piece.len() as u64,
            Ok(Fed2::Done) => self.done = true,
            Err(stop) => self.stop = Some(stop),
        }
        answer
    }
}

// Takes a piece after `taken` bytes. Returns Done with the byte that makes the last sample known, or the fault of the bytes
// at its place, or NoMemory; otherwise More.
fn give_piece<W: SampleWork>(
    work: &mut W,
    taken: u64,
    piece: &[u8],
    made: &mut Bytes,
) -> Result<Fed2, Stop>
    requires room { taken + length piece.now ≤ 1099511627776 }
    requires going { IsGiving W.kind work.old }
    ensures takes { TakesPiece W.kind work.old taken piece.now made.old result work.new made.new }
    ensures info { KeepsInfoTaken W.kind work.old result work.new }
    ensures going { GoesOn W.kind result work.new }
    ensures memory { AsksTaken W.kind work.old taken piece.now result }
{
    let mut at: usize = 0;
    while at < piece.len() {
        let step = work.give(&piece[at..], made);
        at += step.used;
        match step.answer {
            Answer::More => {}
            Answer::Whole => return Ok(Fed2::Done),
            Answer::Fault(fault) => {
                return Err(Stop::Fault(FaultAt {
                    fault,
                    at: taken + at as u64,
                }));
            }
            Answer::NoMemory => return Err(Stop::NoMemory),
        }
    }
    Ok(Fed2::More)
}
