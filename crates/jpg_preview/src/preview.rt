//! A preview of a file: its picture after so many scans, once each component has one (T.81, B.2.1, G.1.1.1).
ghost use Rattle.std.specs.Prelude.{◌≡◌, ◌≤◌, ◌+◌, [], ℕ, List, length, Some, None, true, false, Err};
ghost use Rattle.jpg_spec.specs.FrameHeader.{AreLimits};
ghost use Rattle.jpg_spec.specs.declared.frame.Copying.TheVariants.{All};
ghost use Rattle.jpg_base.specs.declared.stop.Stop.{Stop as Stopped};
ghost use Rattle.jpg_file.specs.Read.File.{keeping_of};
ghost use Rattle.jpg_file.specs.Read.PictureRead.{TakesEarly, TakesPicture};
ghost use Rattle.jpg_file.specs.Read.ReadFile.{AfterEnd, EndsDone, head_seen};
ghost use Rattle.jpg_file.specs.declared.read.ends.End.TheVariants as ends;
ghost use Rattle.jpg_preview.specs.Viewing.{EndsView, HasViewed, PieceLacks, ViewsFile};

use crate::view::view_piece;
use jpg_base::{Colour, Fed, Frame, Limits, Stop};
use jpg_file::{End, Picture, Reader};
use std::alloc::Global;
use std::marker::Model;

/// Reads a file up to the marker that ends the data of its scan of this number, or of the first later one with which
/// each component is in some scan. What follows isn't read.
#[derive(Drop)]
pub struct Preview {
    // What reads the file up to that marker.
    reader: Reader,
    // How many scans are asked for.
    scans: u16,
    // Why the preview stopped, if it did.
    stop: Option<Stop>,
}

impl Model for Preview {
    ghost use Rattle.jpg_preview.specs.Viewing.{IsReady, PreviewState};

    ghost Value = { PreviewState };

    ghost view = { λ p. record { reader = p.reader; scans = p.scans; stop = p.stop } };

    ghost invariant = { λ p. IsReady (record { reader = p.reader; scans = p.scans; stop = p.stop }) };
}

impl Preview {
    /// A preview of this many scans that was given no bytes. It keeps all markers. It takes no memory yet.
    pub fn new(alloc: Global, limits: Limits, scans: u16) -> Preview
        requires limited { AreLimits limits }
        requires some { 1 ≤ scans }
        ensures viewed { HasViewed [] result }
        ensures limits { result.reader.limits ≡ limits }
        ensures scans { result.scans ≡ scans }
        ensures keeping { keeping_of result.reader.file ≡ All }
    {
        Preview {
            reader: Reader::new(alloc, limits),
            scans,
            stop: None,
        }
    }

    /// Takes a further piece of the file, of any length. Returns Done if the front of the file for so many scans is
    /// complete then and has no fault, or if the file is, and how many bytes of the piece were used, the last one of
    /// these among them. Otherwise it returns the first fault of the front, at its place, or NoMemory, which isn't
    /// returned where its reader stopped for a fault. Otherwise it returns More. After a stop it returns the same stop.
    /// It may not be called once it is done (`is_done`).
    pub fn feed(&mut self, piece: &[u8]) -> Result<Fed, Stop>
        requires undone { self.old.reader.done ≡ false }
        ensures answered { ViewsFile self.old piece.now result self.new }
        ensures memory { (bytes : List ℕ) → HasViewed bytes self.old → PieceLacks result self.new.reader }
        ensures done { EndsDone result self.new.reader }
        ensures stopped { (stop : Stopped) → result ≡ Err stop → self.new.stop ≡ Some stop }
        ensures again { (stop : Stopped) → self.old.stop ≡ Some stop → (result ≡ Err stop) × (self.new ≡ self.old) }
        ensures limits { self.new.reader.limits ≡ self.old.reader.limits }
        ensures keeping { keeping_of self.new.reader.file ≡ keeping_of self.old.reader.file }
        ensures scans { self.new.scans ≡ self.old.scans }
    {
        if let Some(stop) = self.stop {
            return Err(stop);
        }
        match view_piece(&mut self.reader, self.scans, piece) {
            Ok(fed) => Ok(fed),
            Err(stop) => {
                self.stop = Some(stop);
                Err(stop)
            }
        }
    }

    /// How many bytes more may be taken: the limit minus those that were taken.
    pub fn room(&self) -> u64
        ensures { (bytes : List ℕ) → HasViewed bytes self.now → result + length bytes ≡ self.now.reader.limits.input }
    {
        self.reader.room()
    }

    /// Whether the front or the file is complete, or the file ended early, so that neither `feed` nor `end` may be
    /// called any more.
    pub fn is_done(&self) -> bool
        ensures { result ≡ self.now.reader.done }
    {
        self.reader.is_done()
    }

    /// The file ends here. Returns Early with the number of bytes taken if each component has begun: its picture may
    /// be taken then. Otherwise it returns Truncated at the number of bytes taken, or the earlier stop. It may not be
    /// called once it is done (`is_done`).
    pub fn end(&mut self) -> End
        requires { self.old.reader.done ≡ false }
        ensures answered { (bytes : List ℕ) → HasViewed bytes self.old → AfterEnd bytes result self.new.reader }
        ensures done { EndsView result self.new }
        ensures again { (stop : Stopped) → self.old.stop ≡ Some stop → (result ≡ ends.Stop stop) × (self.new ≡ self.old) }
        ensures file { self.new.reader.file ≡ self.old.reader.file }
        ensures limits { self.new.reader.limits ≡ self.old.reader.limits }
        ensures scans { self.new.scans ≡ self.old.scans }
    {
        if let Some(stop) = self.stop {
            return End::Stop(stop);
        }
        let end = self.reader.end();
        match end {
            End::Early(_) => {}
            End::Stop(stop) => self.stop = Some(stop),
        }
        end
    }

    /// The frame, the colours, and the place of the end of the first scan header, once it is complete and breaks no
    /// rule; also after a later stop.
    pub fn head(&self) -> Option<(Frame, Colour, u64)>
        ensures { result ≡ head_seen self.now.reader }
    {
        self.reader.head()
    }

    /// The picture of the front, or of the complete file, or of one that ended early, with the markers that were kept.
    /// It may be called only after `feed` returned Done or `end` returned Early (`is_done`). The preview has nothing
    /// left then, and returns NoMemory for further pieces.
    pub fn take(&mut self) -> Picture
        requires { self.old.reader.done ≡ true }
        ensures meaning { TakesPicture self.old.reader result }
        ensures early { TakesEarly self.old.reader result }
        ensures over { (self.new.reader.done ≡ false) × (self.new.stop ≡ Some Stopped.NoMemory) }
    {
        self.stop = Some(Stop::NoMemory);
        self.reader.take()
    }
}
