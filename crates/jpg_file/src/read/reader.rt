//! A file, fed in pieces of any length; read into a picture, or MCU row by MCU row (T.81, A.2.3, B.2.1).
ghost use Rattle.std.specs.Prelude.{◌≡◌, ◌+◌, ◌-◌, length, [], ℕ, List, Some, None, true, false, Err};
ghost use Rattle.jpg_spec.specs.FrameHeader.{AreLimits};
ghost use Rattle.jpg_spec.specs.InForce.{frame_of};
ghost use Rattle.jpg_spec.specs.declared.frame.Copying.TheVariants.{All, None as NoMarkers};
ghost use Rattle.jpg_base.specs.declared.stop.Stop.{Stop as Stopped};
ghost use Rattle.jpg_file.specs.Read.File.{keeping_of};
ghost use Rattle.jpg_file.specs.Read.PictureRead.{TakesEarly, TakesPicture};
ghost use Rattle.jpg_file.specs.Read.ReadFile.{AfterEnd, AsksOnFeed, EndsDone, EndsWith, FeedsFile, HasRead, TellsBegun, head_seen, AsksOnFeedKeeping, AsksOnFeedRow, FeedsKeeping, IsPlain, ReadsOne, EndsDoneRow, EndsRow, FeedsRow, HasBegunRows, HasGivenRow, HasReadPlainly, HasReadRows, picture_read};
ghost use Rattle.jpg_file.specs.Read.Strips.{TellsStrip};
ghost use Rattle.jpg_file.specs.Read.ScanPieces.{AsksOnFeedScan, EndsDoneScan, FeedsScan, ScansEnded};
ghost use Rattle.jpg_file.specs.declared.read.ends.End.TheVariants as ends;

use crate::read::ends::End;
use crate::read::file::FileState;
use crate::read::orders::Orders;
use crate::read::picture::Picture;
use crate::read::picture_taken::picture_of;
use crate::read::pieces::{FedRow, FedScan, read_piece};
use crate::read::rows::RowWork;
use crate::read::strip_head::StripHead;
use crate::read::window::Window;
use jpg_base::{Fed, Frame, Limits, Stop};
use jpg_coefs::Coefs;
use jpg_markers::KeptList;
use jpg_spec::{Colour, Copying};
use std::alloc::Global;
use std::marker::Model;
use std::mem;

/// Reads a file into a picture (`feed`); or (`feed_row`) MCU row by MCU row, if its first scan has all components of a
/// sequential frame, and otherwise into a picture too.
#[derive(Drop)]
pub struct Reader {
    // The state of the file.
    work: FileState,
    // It is read MCU row by MCU row, and no markers are kept but JFIF and Adobe segments.
    by_row: bool,
    // The file is complete, or ended early.
    done: bool,
    // Why the reader stopped, if it did.
    stop: Option<Stop>,
}

impl Model for Reader {
    ghost use Rattle.jpg_file.specs.Read.ReadFile.{ReaderState};
    ghost use Rattle.jpg_file.specs.Read.File.{limits_of};
    ghost use Rattle.jpg_file.specs.Read.ReadFile.{IsReading};
    ghost use Rattle.jpg_file.specs.Read.Window.{rows_in};

    ghost Value = { ReaderState };

    ghost view = { λ r. record { limits = limits_of r.work; file = r.work; by_row = r.by_row; in_rows = r.work.by_row; rows = rows_in r.work.window; strip = r.work.strip; done = r.done; stop = r.stop } };

    ghost invariant = { λ r. IsReading (record { limits = limits_of r.work; file = r.work; by_row = r.by_row; in_rows = r.work.by_row; rows = rows_in r.work.window; strip = r.work.strip; done = r.done; stop = r.stop }) };
}

impl Reader {
    /// A reader that was given no bytes. It keeps all markers. It takes no memory yet.
    pub fn new(alloc: Global, limits: Limits) -> Reader
        requires { AreLimits limits }
        ensures read { HasRead [] result }
        ensures limits { result.limits ≡ limits }
        ensures keeping { keeping_of result.file ≡ All }
        ensures plain { IsPlain result }
    {
        Reader::for_copying(alloc, limits, Copying::All)
    }

    /// A reader that was given no bytes. Of the markers it keeps only those that this passes on, and JFIF and Adobe
    /// segments. The others still count for the limit.
    pub fn for_copying(alloc: Global, limits: Limits, copying: Copying) -> Reader
        requires { AreLimits limits }
        ensures read { HasRead [] result }
        ensures limits { result.limits ≡ limits }
        ensures keeping { keeping_of result.file ≡ copying }
        ensures plain { IsPlain result }
    {
        Reader::in_order(alloc, limits, copying, Orders::by_rows())
    }

    /// A reader as that of `for_copying`, which stores the blocks of a picture in these orders. Nothing else depends on
    /// them.
    pub fn in_order(alloc: Global, limits: Limits, copying: Copying, orders: Orders) -> Reader
        requires { AreLimits limits }
        ensures read { HasRead [] result }
        ensures limits { result.limits ≡ limits }
        ensures keeping { keeping_of result.file ≡ copying }
        ensures plain { IsPlain result }
    {
        Reader::begin(alloc, limits, copying, orders, false)
    }

    // A reader that was given no bytes, which reads MCU row by MCU row or not.
    fn begin(
        alloc: Global,
        limits: Limits,
        copying: Copying,
        orders: Orders,
        in_rows: bool,
    ) -> Reader
        requires { AreLimits limits }
        ensures read { HasRead [] result }
        ensures limits { result.limits ≡ limits }
        ensures keeping { keeping_of result.file ≡ copying }
        ensures in_rows { result.in_rows ≡ in_rows }
        ensures none { result.rows ≡ None }
    {
        Reader {
            work: FileState::new(alloc, limits, copying, orders, in_rows),
            by_row: false,
            done: false,
            stop: None,
        }
    }

    /// A reader for `feed_row` in place of `feed`, which keeps no markers but JFIF and Adobe segments.
    pub fn strips(alloc: Global, limits: Limits) -> Reader
        requires { AreLimits limits }
        ensures read { HasReadPlainly [] result }
        ensures limits { result.limits ≡ limits }
        ensures keeping { keeping_of result.file ≡ NoMarkers }
        ensures by_row { result.by_row ≡ true }
    {
        let mut reader = Reader::strips_keeping(alloc, limits, Copying::None);
        reader.by_row = true;
        reader
    }

    /// A reader for `feed_keeping` in place of `feed`. Of the markers it keeps only those that this passes on, and JFIF and
    /// Adobe segments.
    pub fn strips_keeping(alloc: Global, limits: Limits, copying: Copying) -> Reader
        requires { AreLimits limits }
        ensures read { HasReadPlainly [] result }
        ensures limits { result.limits ≡ limits }
        ensures keeping { keeping_of result.file ≡ copying }
        ensures in_rows { result.in_rows ≡ true }
    {
        Reader::begin(alloc, limits, copying, Orders::by_rows(), true)
    }

    /// Takes a further piece of the file, of any length. Returns Done if the file is complete then, and how many bytes
    /// of the piece were used, its EOI among them; the first fault of the bytes so far, at its place, InputTooLong if
    /// the limit was reached, or NoMemory, but not inside the data of a scan; and otherwise More. After a stop it
    /// returns the same stop. It may not be called once the file is done (`is_done`), nor where MCU rows are to be read.
    pub fn feed(&mut self, piece: &[u8]) -> Result<Fed, Stop>
        requires undone { self.old.done ≡ false }
        requires plain { IsPlain self.old }
        ensures answered { FeedsFile self.old piece.now result self.new }
        ensures memory { AsksOnFeed self.old piece.now result self.new }
        ensures done { EndsDone result self.new }
        ensures stopped { (stop : Stopped) → result ≡ Err stop → self.new.stop ≡ Some stop }
        ensures again { (stop : Stopped) → self.old.stop ≡ Some stop → (result ≡ Err stop) × (self.new ≡ self.old) }
        ensures limits { self.new.limits ≡ self.old.limits }
        ensures keeping { keeping_of self.new.file ≡ keeping_of self.old.file }
        ensures plain { IsPlain self.new }
    {
        match self.read(piece, false) {
            Ok(FedRow::More) => Ok(Fed::More),
            Ok(FedRow::Row { .. }) => unreachable!(),
            Ok(FedRow::Done { used }) => Ok(Fed::Done { used }),
            Err(stop) => Err(stop),
        }
    }

    /// As `feed`, but at most up to the next end of a scan's data: if these end in the piece, it returns Scan, and how
    /// many bytes were used, the last one of these the code of the marker after the data.
    pub fn feed_scan(&mut self, piece: &[u8]) -> Result<FedScan, Stop>
        requires undone { self.old.done ≡ false }
        requires plain { IsPlain self.old }
        ensures answered { FeedsScan self.old piece.now result self.new }
        ensures memory { AsksOnFeedScan self.old piece.now result self.new }
        ensures done { EndsDoneScan piece.now result self.new }
        ensures stopped { (stop : Stopped) → result ≡ Err stop → self.new.stop ≡ Some stop }
        ensures again { (stop : Stopped) → self.old.stop ≡ Some stop → (result ≡ Err stop) × (self.new ≡ self.old) }
        ensures limits { self.new.limits ≡ self.old.limits }
        ensures keeping { keeping_of self.new.file ≡ keeping_of self.old.file }
        ensures plain { IsPlain self.new }
    {
        match self.read(piece, true) {
            Ok(FedRow::More) => Ok(FedScan::More),
            Ok(FedRow::Row { used }) => Ok(FedScan::Scan { used }),
            Ok(FedRow::Done { used }) => Ok(FedScan::Done { used }),
            Err(stop) => Err(stop),
        }
    }

    /// How many scans' data have ended, each by the marker after them.
    pub fn scans_ended(&self) -> u64
        ensures { (bytes : List ℕ) → HasRead bytes self.now → ScansEnded self.now.limits bytes result }
    {
        self.work.scans_ended()
    }

    /// Takes a further piece of the file, up to the byte with the last bit of the next MCU row. Returns Row if one more
    /// is complete; the bits after its last one wait for the next call, which judges them first, and whose piece may be
    /// empty. Returns Done if the file is complete, the first fault of the bytes so far, at its place, NoMemory only
    /// before rows are read and not inside the data of a scan, and otherwise More. After a stop it returns the same
    /// stop. It may not be called once the file is complete, and only of a reader of `strips`.
    pub fn feed_row(&mut self, piece: &[u8]) -> Result<FedRow, Stop>
        requires undone { self.old.done ≡ false }
        requires by_row { self.old.by_row ≡ true }
        ensures answered { FeedsRow self.old piece.now result self.new }
        ensures memory { AsksOnFeedRow self.old piece.now result self.new }
        ensures done { EndsDoneRow result self.new }
        ensures stopped { (stop : Stopped) → result ≡ Err stop → self.new.stop ≡ Some stop }
        ensures again { (stop : Stopped) → self.old.stop ≡ Some stop → (result ≡ Err stop) × (self.new ≡ self.old) }
        ensures limits { self.new.limits ≡ self.old.limits }
        ensures keeping { keeping_of self.new.file ≡ keeping_of self.old.file }
        ensures by_row { self.new.by_row ≡ true }
    {
        self.read(piece, false)
    }

    /// As `feed_row`, of a reader of `strips_keeping`. It returns NoMemory also after rows began, where a marker is to be
    /// kept.
    pub fn feed_keeping(&mut self, piece: &[u8]) -> Result<FedRow, Stop>
        requires undone { self.old.done ≡ false }
        requires in_rows { self.old.in_rows ≡ true }
        ensures answered { FeedsKeeping self.old piece.now result self.new }
        ensures memory { AsksOnFeedKeeping self.old piece.now result self.new }
        ensures done { EndsDoneRow result self.new }
        ensures stopped { (stop : Stopped) → result ≡ Err stop → self.new.stop ≡ Some stop }
        ensures again { (stop : Stopped) → self.old.stop ≡ Some stop → (result ≡ Err stop) × (self.new ≡ self.old) }
        ensures limits { self.new.limits ≡ self.old.limits }
        ensures keeping { keeping_of self.new.file ≡ keeping_of self.old.file }
        ensures in_rows { self.new.in_rows ≡ true }
    {
        self.read(piece, false)
    }

    // Takes a further piece, up to the byte with the last bit of the next MCU row, if MCU rows are read; or with `scans`
    // up to the next end of a scan's data, which is Row then.
    fn read(&mut self, piece: &[u8], scans: bool) -> Result<FedRow, Stop>
        requires undone { self.old.done ≡ false }
        requires plain { scans ≡ true → IsPlain self.old }
        ensures read { ReadsOne scans self.old piece.now result self.new }
        ensures plain { IsPlain self.old → IsPlain self.new }
        ensures done { EndsDoneRow result self.new }
        ensures stopped { (stop : Stopped) → result ≡ Err stop → self.new.stop ≡ Some stop }
        ensures again { (stop : Stopped) → self.old.stop ≡ Some stop → (result ≡ Err stop) × (self.new ≡ self.old) }
        ensures limits { self.new.limits ≡ self.old.limits }
        ensures keeping { keeping_of self.new.file ≡ keeping_of self.old.file }
        ensures by_row { self.new.by_row ≡ self.old.by_row }
        ensures in_rows { self.new.in_rows ≡ self.old.in_rows }
    {
        if let Some(stop) = self.stop {
            return Err(stop);
        }
        let answer = read_piece(&mut self.work, piece, scans);
        self.done = matches!(answer, Ok(FedRow::Done { .. }));
        self.stop = answer.err();
        answer
    }

    /// How many bytes more may be taken: the limit minus those that were taken.
    #[tactic(auto, using(crate::proofs::Files::FileSteps::counted))]
    pub fn room(&self) -> u64
        ensures is { result ≡ self.now.limits.input - self.now.file.taken }
        ensures left { (bytes : List ℕ) → HasRead bytes self.now → result + length bytes ≡ self.now.limits.input }
    {
        let limits = self.work.items.limits();
        limits.input.saturating_sub(self.work.taken)
    }

    /// Whether the file is complete or ended early, so that neither `feed` nor `end` may be called any more.
    pub fn is_done(&self) -> bool
        ensures { result ≡ self.now.done }
    {
        self.done
    }

    /// Whether each component was named by a complete scan header that breaks no rule. It is so where MCU rows are read,
    /// and of a file that is complete or ended early.
    pub fn begun(&self) -> bool
        ensures read { (bytes : List ℕ) → HasRead bytes self.now → TellsBegun self.now.limits bytes result }
        ensures rows { (bytes : List ℕ) (m : ℕ) → HasReadRows bytes m self.now → result ≡ true }
        ensures given { (bytes : List ℕ) (m : ℕ) → HasGivenRow bytes m self.now → result ≡ true }
        ensures done { self.now.done ≡ true → result ≡ true }
    {
        self.work.begun.is_complete()
    }

    /// The file ends here. Returns Early with the number of bytes taken if each component has begun: its picture may be
    /// taken then, or `row_coefs` lends the current MCU row, with zeros where units are missing. Otherwise it returns
    /// Truncated at the number of bytes taken, or the earlier stop. It may not be called once the file is done
    /// (`is_done`), nor if `feed_row` returned Row last.
    pub fn end(&mut self) -> End
        requires { self.old.done ≡ false }
        ensures answered { (bytes : List ℕ) → HasRead bytes self.old → AfterEnd bytes result self.new }
        ensures rows_answered { EndsRow self.old result self.new }
        ensures done { EndsWith result self.new }
        ensures file { self.new.file ≡ self.old.file }
        ensures rows { (self.new.rows ≡ self.old.rows) × (self.new.strip ≡ self.old.strip) × (self.new.by_row ≡ self.old.by_row) }
        ensures in_rows { self.new.in_rows ≡ self.old.in_rows }
        ensures again { (stop : Stopped) → self.old.stop ≡ Some stop → (result ≡ ends.Stop stop) × (self.new ≡ self.old) }
        ensures limits { self.new.limits ≡ self.old.limits }
        ensures keeping { keeping_of self.new.file ≡ keeping_of self.old.file }
    {
        if let Some(stop) = self.stop {
            return End::Stop(stop);
        }
        let taken = self.work.taken;
        if self.work.begun.is_complete() {
            self.done = true;
            return End::Early(taken);
        }
        let stop = Stop::truncated(taken);
        self.stop = Some(stop);
        End::Stop(stop)
    }

    /// The frame, the colours, and the place of the end of the first scan header, once it is complete and breaks no
    /// rule; also after a later stop.
    pub fn head(&self) -> Option<(Frame, Colour, u64)>
        ensures { result ≡ head_seen self.now }
    {
        let head = self.work.head.as_ref()?;
        Some((head.frame.copy(), head.colour, head.at))
    }

    /// The picture except for its blocks, once its first scan began and is read MCU row by MCU row.
    pub fn strip(&self) -> Option<StripHead>
        ensures some { (bytes : List ℕ) (b : HasBegunRows bytes self.now) → TellsStrip result (frame_of self.now.limits b.before) (picture_read bytes self.now b) }
        ensures none { self.now.rows ≡ None → result ≡ None }
    {
        let Window::Row(_) = &self.work.window else {
            return None;
        };
        Some(self.work.strip.as_ref()?.copy())
    }

    /// The blocks of the complete MCU row, after `feed_row` returned Row. If `end` returned Early and MCU rows are
    /// missing, those of the current row.
    pub fn row_coefs(&self) -> &Coefs
        requires { (rows : RowWork) × (self.now.rows ≡ Some rows) }
        ensures { (rows : RowWork) → self.now.rows ≡ Some rows → result.now ≡ rows.coefs }
    {
        let Window::Row(rows) = &self.work.window else {
            unreachable!();
        };
        &rows.coefs
    }

    /// The picture of the complete file, or of one that ended early, with the markers that were kept. It may be called
    /// only after `feed` or `feed_row` returned Done or `end` returned Early (`is_done`), and if no MCU rows are read.
    /// The reader has nothing left then, and returns NoMemory for further pieces.
    pub fn take(&mut self) -> Picture
        requires done { self.old.done ≡ true }
        requires plain { self.old.rows ≡ None }
        ensures meaning { TakesPicture self.old result }
        ensures early { TakesEarly self.old result }
        ensures over { (self.new.done ≡ false) × (self.new.stop ≡ Some Stopped.NoMemory) }
        ensures plain { IsPlain self.new }
        ensures limits { self.new.limits ≡ self.old.limits }
    {
        self.done = false;
        self.stop = Some(Stop::NoMemory);
        self.by_row = false;
        let picture = picture_of(&mut self.work);
        self.work.by_row = false;
        picture
    }
    /// The markers that were kept, of the complete file or of one that ended early. It may be called only after `feed` or
    /// `feed_keeping` returned Done or `end` returned Early (`is_done`). The reader has nothing left then, and returns
    /// NoMemory for further pieces.
    pub fn take_kept(&mut self) -> KeptList
        requires { self.old.done ≡ true }
        ensures kept { result ≡ self.old.file.items.held.kept }
        ensures over { (self.new.done ≡ false) × (self.new.stop ≡ Some Stopped.NoMemory) }
        ensures limits { self.new.limits ≡ self.old.limits }
    {
        self.done = false;
        self.stop = Some(Stop::NoMemory);
        self.by_row = false;
        self.work.by_row = false;
        let alloc = self.work.alloc;
        mem::replace(&mut self.work.items.held.kept, KeptList::new(alloc))
    }
}
