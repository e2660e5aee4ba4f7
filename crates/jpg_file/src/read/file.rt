//! A file, read byte by byte, or MCU row by MCU row if its first scan has all components (T.81, A.2.3, B.2.1).
ghost use Rattle.std.specs.Prelude.{◌≡◌, ◌<◌, ◌≤◌, ◌+◌, ℕ, List, [], drop, length, slice_index, Option, Some, None, Ok, if◌then◌else◌, false, take, true};
ghost use Rattle.jpg_spec.specs.FrameHeader.{AreLimits};
ghost use Rattle.jpg_base.specs.declared.stop.Stop.TheVariants as stop;
ghost use Rattle.jpg_coefs.specs.Picture.{Picture};
ghost use Rattle.jpg_file.specs.Read.ScanStart.{HasSizes};
ghost use Rattle.jpg_file.specs.Read.File.{CanBeginHead, HasPlain, IsPlainRun, KeepsFile, LeavesAll, NeedsNoMemory, TakesHead, HasCompleteHeader, NotesHead, RoomMade, RepresentsFile, TakesFileEnd, TakesFileHead, keeping_of, limits_of, scans_ended, settings_of, with_picture};
ghost use Rattle.jpg_file.specs.Read.Going.{CanGoOn, GoesOn, file_with};
ghost use Rattle.jpg_file.specs.Read.InData.{completes_row};
ghost use Rattle.jpg_file.specs.Read.Passing.{HasNoneToPass, PassesAll, PassesFront};
ghost use Rattle.jpg_file.specs.Read.ReadFile.{TakesBytes, TakesFirstHead, TakesFirstItem, TakesOne};
ghost use Rattle.jpg_file.specs.Read.Step.{IfStops, IsNoRow, HasMemory};
ghost use Rattle.jpg_file.specs.Read.Strips.{CountsRows, FindsHead, FindsNone, HasHeader, HasLaterHead, PassesLater, RepresentsStrip, Resumed, StripGoes, seen_of};
ghost use Rattle.jpg_file.specs.Read.Window.{rows_in};

use crate::read::first_header::{Head, head_of};
use crate::read::items::Items;
use crate::read::orders::Orders;
use crate::read::rows::RowWork;
use crate::read::scan::InScan;
use crate::read::scan_history::ScanHistory;
use crate::read::scan_start::{begin_data, judge_head};
use crate::read::step::Step;
use crate::read::strip_head::{StripHead, strip_of};
use crate::read::window::Window;
use jpg_base::{Frame, Limits, NoMemory, ScanHead, Stop};
use jpg_markers::{SegStep, fill_length};
use jpg_spec::{Copying, Fault, FaultAt};
use memchr::memchr;
use std::alloc::Global;

/// The state of a file that is read: of its items, of the window that its blocks are kept in, and of the current scan. With
/// `by_row`, blocks are kept one MCU row at a time, if its first scan is a sequential one of all components.
#[derive(Drop)]
pub struct FileState {
    /// Where memory comes from.
    pub alloc: Global,
    /// The orders in which blocks are stored.
    pub orders: Orders,
    /// Its items so far.
    pub items: Items,
    /// The blocks, from the first scan on.
    pub window: Window,
    /// The current scan, inside its data.
    pub scan: Option<InScan>,
    /// How many bytes were taken.
    pub taken: u64,
    /// What the scans so far define.
    pub begun: ScanHistory,
    /// What its first scan header determines, once there is one.
    pub head: Option<Head>,
    /// It is to be read MCU row by MCU row.
    pub by_row: bool,
    /// The head of its picture, once there is an MCU row.
    pub strip: Option<StripHead>,
}

impl FileState {
    /// A file before any byte, with the markers that are to be kept, the orders in which blocks are stored, and whether it
    /// is to be read MCU row by MCU row. It takes no memory yet.
    pub fn new(
        alloc: Global,
        limits: Limits,
        keeping: Copying,
        orders: Orders,
        by_row: bool,
    ) -> FileState
        requires { AreLimits limits }
        ensures stands { RepresentsFile limits [] result }
        ensures keeping { keeping_of result ≡ keeping }
        ensures limits { limits_of result ≡ limits }
        ensures none { rows_in result.window ≡ None }
        ensures by_row { result.by_row ≡ by_row }
    {
        FileState {
            alloc,
            orders,
            items: Items::new(alloc, limits, keeping),
            window: Window::None,
            scan: None,
            taken: 0,
            begun: ScanHistory::new(),
            head: None,
            by_row,
            strip: None,
        }
    }

    /// Goes to the next MCU row if one is complete, and takes the bits that wait after it.
    pub fn resume(&mut self) -> Step
        requires { (bytes : List ℕ) × RepresentsStrip (limits_of self.old) bytes (rows_in self.old.window) self.old }
        ensures { Resumed (seen_of self.old) result (seen_of self.new) }
    {
        match &mut self.window {
            Window::None => Step::More,
            Window::All(_) => Step::More,
            Window::Row(rows) => {
                let Some(scan) = &mut self.scan else {
                    return Step::More;
                };
                rows.next();
                if rows.waiting.len() == 0 {
                    return Step::More;
                }
                let before = rows.left;
                match scan.rest_in_row(rows) {
                    Ok(_) => row_step(before, rows.left),
                    Err(fault) => fault_at(fault, self.taken),
                }
            }
        }
    }

    /// Takes one or more of these bytes, up to the first event. Returns how many, and the event.
    pub fn some(&mut self, bytes: &[u8]) -> (usize, Step)
        requires stands { (front : List ℕ) × StripGoes (limits_of self.old) front (rows_in self.old.window) self.old }
        requires room { self.old.taken < (limits_of self.old).input }
        requires some { 1 ≤ length bytes.now }
        ensures { TakesBytes (seen_of self.old) bytes.now result.0 result.1 (seen_of self.new) }
    {
        let n = self.plain_length(bytes);
        if n > 0 {
            return self.run(bytes, n);
        }
        let n = self.front(bytes);
        (n + 1, self.byte(bytes[n]))
    }

    // How many plain bytes of a scan there are at the start of these that may be taken together.
    fn plain_length(&self, bytes: &[u8]) -> usize
        requires { self.now.taken ≤ (limits_of self.now).input }
        ensures { HasPlain self.now bytes.now result }
    {
        let Some(scan) = &self.scan else {
            return 0;
        };
        if !scan.is_open() {
            return 0;
        }
        plain_length(bytes, self.items.limits().input - self.taken)
    }

    // Takes plain bytes inside the data of a scan, of so many first ones, up to the byte that ends an interval, reveals a
    // fault or has the last bit of an MCU row. Returns how many were taken, and the result.
    fn run(&mut self, bytes: &[u8], size: usize) -> (usize, Step)
        requires stands { (front : List ℕ) × StripGoes (limits_of self.old) front (rows_in self.old.window) self.old }
        requires within { size ≤ length bytes.now }
        requires plain { IsPlainRun self.old (take size bytes.now) }
        ensures { TakesBytes (seen_of self.old) bytes.now result.0 result.1 (seen_of self.new) }
    {
        let Some(scan) = &mut self.scan else {
            unreachable!();
        };
        let before = self.window.left();
        let (n, step) = scan.run(&mut self.window, &bytes[..size]);
        let at = self.taken + n as u64;
        self.taken = at;
        match step {
            Ok(_) => (n, row_step(before, self.window.left())),
            Err(fault) => (n, fault_at(fault, at)),
        }
    }

    // Skips what causes no event, and returns how many bytes that were: between items complete segments that break no
    // rule, and then fill bytes or contents before a segment's last byte; inside the data of a scan fill bytes after
    // FF. It always leaves a byte.
    fn front(&mut self, bytes: &[u8]) -> usize
        requires stands { (q : Window) × (bytes : List ℕ) × RepresentsFile (limits_of self.old) bytes (file_with self.old q) }
        requires room { self.old.taken < (limits_of self.old).input }
        requires some { 1 ≤ length bytes.now }
        ensures after { PassesFront self.old bytes.now result self.new }
        ensures most { PassesAll self.old.scan self.old bytes.now result }
    {
        let room = self.items.limits().input - self.taken;
        let most = (bytes.len() as u64).min(room) as usize;
        let ahead = &bytes[..most - 1];
        let Some(scan) = &self.scan else {
            let done = self.segments(ahead);
            let n = self.items.contents(&ahead[done..]);
            self.taken += n as u64;
            return done + n;
        };
        if !scan.gate.is_waiting() {
            return 0;
        }
        let n = fill_length(ahead);
        self.taken += n as u64;
        n
    }

    // Takes complete segments at the start of these bytes, as many as can be taken so. Returns how many bytes they take.
    fn segments(&mut self, bytes: &[u8]) -> usize
        requires { CanGoOn self.old bytes.now }
        ensures after { GoesOn self.old bytes.now result self.new }
        ensures none { HasNoneToPass self.new.items (drop result bytes.now) }
        ensures sparing { NeedsNoMemory self.old → NeedsNoMemory self.new }
        ensures keeping { settings_of self.new ≡ settings_of self.old }
    {
        let mut done = 0usize;
        loop {
            let n = self.items.whole(&bytes[done..]);
            self.taken += n as u64;
            done += n;
            if n == 0 {
                return done;
            }
        }
    }

    // Takes a byte, inside the data of a scan or between items.
    fn byte(&mut self, byte: u8) -> Step
        requires stands { (front : List ℕ) × StripGoes (limits_of self.old) front (rows_in self.old.window) self.old }
        requires room { self.old.taken < (limits_of self.old).input }
        ensures { TakesOne (seen_of self.old) byte result (seen_of self.new) }
    {
        let at = self.taken + 1;
        self.taken = at;
        let Some(scan) = &mut self.scan else {
            let came = self.items.byte(byte);
            return self.item(came);
        };
        let before = self.window.left();
        match scan.byte(&mut self.window, byte) {
            Ok(false) => row_step(before, self.window.left()),
            Ok(true) => {
                self.scan = None;
                let came = self.items.marker(byte, at);
                self.item(came)
            }
            Err(fault) => fault_at(fault, at),
        }
    }

    /// How many scans' data have ended: all that began, but the current one.
    pub fn scans_ended(&self) -> u64
        ensures { result ≡ scans_ended self.now }
    {
        if self.scan.is_some() {
            return self.begun.scans.saturating_sub(1);
        }
        self.begun.scans
    }

    // The result of an item that is complete, or of a further byte of one.
    fn item(&mut self, came: Result<SegStep, Stop>) -> Step
        requires { came ≡ Ok SegStep.Whole → HasHeader (rows_in self.old.window) self.old }
        ensures first { rows_in self.old.window ≡ None → TakesFirstItem (seen_of self.old) came result (seen_of self.new) }
        ensures later { (rows : RowWork) → rows_in self.old.window ≡ Some rows → PassesLater self.old came result self.new }
    {
        match came {
            Ok(SegStep::Whole) => self.take_head(),
            Ok(SegStep::Eoi) => self.take_end(),
            Ok(SegStep::More | SegStep::Start | SegStep::Frame) => Step::More,
            Err(stop) => Step::Ended(stop),
        }
    }

    // Takes a complete scan header.
    #[cold]
    #[inline(never)]
    fn take_head(&mut self) -> Step
        requires { HasHeader (rows_in self.old.window) self.old }
        ensures first { rows_in self.old.window ≡ None → TakesFirstHead (seen_of self.old) result (seen_of self.new) }
        ensures later { (rows : RowWork) → rows_in self.old.window ≡ Some rows → PassesLater self.old (Ok SegStep.Whole) result self.new }
    {
        if let Window::Row(_) = &self.window {
            return self.later_head();
        }
        if !self.by_row || self.head.is_some() {
            return self.begin_scan();
        }
        let Some((frame, head)) = self.head_of_all() else {
            return self.begin_scan();
        };
        self.begin_rows(&frame, &head)
    }

    // Begins the scan of a complete scan header, with room for the whole picture, or returns its fault.
    fn begin_scan(&mut self) -> Step
        requires stands { (bytes : List ℕ) × HasCompleteHeader (limits_of self.old) bytes self.old }
        requires none { rows_in self.old.window ≡ None }
        ensures after { TakesFileHead self.old result self.new }
        ensures head { IfStops result (self.new.head ≡ self.old.head) }
        ensures keeps { KeepsFile self.old self.new }
        ensures all { rows_in self.new.window ≡ None }
        ensures no { IsNoRow result }
    {
        if self.make_room().is_err() {
            return Step::Ended(Stop::NoMemory);
        }
        let Window::All(coefs) = &self.window else {
            unreachable!();
        };
        coefs.checked();
        match self.begin_head() {
            Ok(()) => {
                self.note_head();
                Step::More
            }
            Err(fault) => Step::Ended(Stop::Fault(fault)),
        }
    }

    // Begins the scan of a complete scan header, or returns its fault; of the picture nothing is required.
    fn begin_head(&mut self) -> Result<(), FaultAt>
        requires { CanBeginHead self.old }
        ensures after { (now : Picture) → HasSizes now → TakesHead (with_picture self.old now) result (with_picture self.new now) }
        ensures window { self.new.window ≡ self.old.window }
        ensures left { LeavesAll self.old result self.new }
        ensures scanned { result ≡ Ok tt → self.new.items.held.scanned ≡ true }
        ensures head { self.new.head ≡ self.old.head }
        ensures keeps { KeepsFile self.old self.new }
    {
        let at = self.taken;
        let Some(held) = &self.items.held.frame else {
            unreachable!();
        };
        let frame = held.copy();
        match judge_head(
            self.items.segments.contents(),
            &frame,
            &self.items.held,
            &self.begun,
        ) {
            Err(fault) => Err(FaultAt { fault, at }),
            Ok(head) => {
                frame.checked();
                let tables = self.items.held.tables.tables();
                begin_data(
                    &mut self.scan,
                    &frame,
                    &head,
                    &tables,
                    self.items.held.interval,
                );
                self.begun.note(&frame, &head, &self.items.held.quants, at);
                self.items.held.scanned = true;
                Ok(())
            }
        }
    }

    // Keeps the first scan header.
    fn note_head(&mut self)
        ensures { NotesHead self.old self.new }
    {
        if self.head.is_none() {
            self.head = head_of(&self.items.held, self.taken);
        }
    }

    // Makes the picture before the first scan.
    fn make_room(&mut self) -> Result<(), NoMemory>
        ensures made { RoomMade self.old result self.new }
        ensures rows { rows_in self.new.window ≡ rows_in self.old.window }
        ensures head { self.new.head ≡ self.old.head }
        ensures keeps { KeepsFile self.old self.new }
    {
        let Some(frame) = &self.items.held.frame else {
            return Ok(());
        };
        frame.checked();
        let Window::None = &self.window else {
            return Ok(());
        };
        let coefs = self.orders.coefs(self.alloc, frame)?;
        self.window = Window::All(coefs);
        Ok(())
    }

    // Takes EOI: the file is complete if each component was in a scan, and otherwise has the fault MissingComponent.
    fn take_end(&self) -> Step
        ensures end { (q : Window) → TakesFileEnd (file_with self.now q) result }
        ensures memory { HasMemory result }
        ensures no { IsNoRow result }
    {
        if self.begun.is_complete() {
            return Step::Whole;
        }
        Step::Ended(Stop::Fault(FaultAt {
            fault: Fault::MissingComponent,
            at: self.taken,
        }))
    }

    // The fault of a scan header after a scan of all components.
    fn later_head(&self) -> Step
        requires { HasLaterHead self.now }
        ensures { PassesLater self.now (Ok SegStep.Whole) result self.now }
    {
        let Some(frame) = &self.items.held.frame else {
            unreachable!();
        };
        match judge_head(
            self.items.segments.contents(),
            frame,
            &self.items.held,
            &self.begun,
        ) {
            Err(fault) => fault_at(fault, self.taken),
            Ok(_) => unreachable!(),
        }
    }

    // The frame and the complete scan header, if it is of a sequential scan of all components and breaks no rule.
    fn head_of_all(&self) -> Option<(Frame, ScanHead)>
        ensures head { FindsHead self.now result }
        ensures none { FindsNone self.now result }
    {
        let Some(frame) = &self.items.held.frame else {
            return None;
        };
        let Ok(head) = judge_head(
            self.items.segments.contents(),
            frame,
            &self.items.held,
            &self.begun,
        ) else {
            return None;
        };
        if frame.is_progressive() || head.parts.len() != frame.count() as usize {
            return None;
        }
        Some((frame.copy(), head))
    }

    // Begins the first scan, with such a header, with its first MCU row, and with room for each segment after it.
    fn begin_rows(&mut self, frame: &Frame, head: &ScanHead) -> Step
        requires stands { (bytes : List ℕ) × HasCompleteHeader (limits_of self.old) bytes self.old }
        requires finds { FindsHead self.old (Some (frame.now, head.now)) }
        requires none { rows_in self.old.window ≡ None }
        requires first { self.old.head ≡ None }
        requires by_row { self.old.by_row ≡ true }
        ensures { TakesFirstHead (seen_of self.old) result (seen_of self.new) }
    {
        frame.checked();
        let Ok(rows) = RowWork::new(self.alloc, frame, head) else {
            return Step::Ended(Stop::NoMemory);
        };
        match self.begin_head() {
            Ok(()) => {
                if self.items.segments.reserve().is_err() {
                    return Step::Ended(Stop::NoMemory);
                }
                self.note_head();
                self.strip = Some(strip_of(self));
                self.window = Window::Row(rows);
                Step::More
            }
            Err(fault) => Step::Ended(Stop::Fault(fault)),
        }
    }
}

// How many bytes there are before the first FF, at most `most`.
fn plain_length(bytes: &[u8], most: u64) -> usize
    ensures within { result ≤ length bytes.now }
    ensures few { result < 4294967296 }
    ensures room { result ≤ most }
    ensures plain { (k : ℕ) → k < result → slice_index bytes.now k ≡ 255 → ⊥ }
    ensures stops { result < length bytes.now → result < most → result < 4294967295 → slice_index bytes.now result ≡ 255 }
{
    let most = most.min(0xffff_ffff).min(bytes.len() as u64) as usize;
    match memchr(0xff, &bytes[..most]) {
        Some(n) => n,
        None => most,
    }
}

// A fault at this number of bytes.
fn fault_at(fault: Fault, at: u64) -> Step
    ensures is { result ≡ Step.Ended (stop.Fault (record { fault = fault; at = at })) }
    ensures memory { HasMemory result }
    ensures rows { (rows : RowWork) (after : RowWork) → CountsRows result rows after }
{
    Step::Ended(Stop::Fault(FaultAt { fault, at }))
}

// The result of data that go on, by how many units of the MCU row were left, and are: whether it is complete, and wasn't.
fn row_step(before: u64, left: u64) -> Step
    ensures is { result ≡ (if completes_row before left then Step.Row else Step.More) }
    ensures memory { HasMemory result }
{
    if before > 0 && left == 0 {
        Step::Row
    } else {
        Step::More
    }
}
