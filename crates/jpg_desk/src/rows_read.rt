//! The MCU rows of a picture, read piece by piece and transformed at once (T.81, A.2.3, B.2.1).
ghost use Rattle.std.specs.Prelude.{◌≡◌, ◌≤◌, true, false, length, List, ℕ};
ghost use Rattle.jpg_spec.specs.Segments.{standard_limits};
ghost use Rattle.jpg_desk.specs.Pump.{TakesEnd, TakesPiece, of_reader};
ghost use Rattle.jpg_spec.specs.Scan.{Blocks};
ghost use Rattle.jpg_spec.specs.declared.frame.Copying.{Copying};
ghost use Rattle.jpg_desk.specs.MovedRead.{CanGoOn, ReadsRows};
ghost use Rattle.jpg_desk.specs.RowsRead.{CanTakeRows, IsFrontFed, IsRowsFed, TakesRows, is_complete, rows_front, rows_reader};
ghost use Rattle.jpg_desk.specs.RowsTo.{HavePut};
ghost use Rattle.jpg_desk.specs.declared.rows_read.RowsFront.{RowsFront as Front};
ghost use Rattle.jpg_desk.specs.declared.rows_read.RowsRead.{RowsRead as Rows};

use crate::pieces::{PieceSink, pump_on, why_stopped};
use crate::rows_to::RowsTo;
use jpg_base::{Bytes, Desk, NoMemory, Stop};
use jpg_file::{End, FedRow, Reader, StripHead};
use jpg_spec::Limits;
use jpg_spec_words::Why;
use std::alloc::Global;
use std::boxed::Box;

/// What is read up to the piece in which MCU rows begin, or, if none are read, to the end of the file.
#[derive(Drop)]
pub struct RowsFront {
    /// The reader.
    pub reader: Box<Reader, Global>,
    /// That piece.
    pub piece: Bytes,
    /// What the reader answered to it.
    pub answer: Result<FedRow, Stop>,
}

impl<D: Desk> PieceSink<D> for RowsFront {
    ghost kind = { of_reader rows_front };

    fn most(&self) -> u64 {
        Limits::standard().input
    }

    fn feed(&mut self, piece: &[u8], _desk: &mut D) -> Result<bool, Why> {
        self.begin(piece)
    }

    fn end(&mut self, _desk: &mut D) -> Result<Option<u64>, Why> {
        self.at_end()
    }
}

impl RowsFront {
    // Takes a piece, and keeps it if MCU rows begin in it. Returns whether they do, or the file is complete.
    fn begin(&mut self, piece: &[u8]) -> Result<bool, Why>
        requires fed { (from : Front) × (bytes : List ℕ) × IsFrontFed from bytes self.old }
        requires few { length piece.now ≤ 16384 }
        ensures { TakesPiece rows_front self.old piece.now result self.new }
    {
        let answer = self.reader.feed_keeping(piece);
        let fed = match answer {
            Ok(fed) => fed,
            Err(stop) => return Err(why_stopped(stop)),
        };
        match self.reader.strip() {
            None => Ok(is_done(fed)),
            Some(_) => match self.piece.push_all(piece) {
                Err(NoMemory) => Err(Why::NoMemory),
                Ok(()) => {
                    self.answer = answer;
                    Ok(true)
                }
            },
        }
    }

    // The input ends here. Returns after how many bytes, if there is a picture.
    fn at_end(&mut self) -> Result<Option<u64>, Why>
        requires { (from : Front) × (bytes : List ℕ) × IsFrontFed from bytes self.old }
        ensures ends { TakesEnd rows_front self.old result self.new }
        ensures none { (self.new.reader.value).rows ≡ (self.old.reader.value).rows }
    {
        match self.reader.end() {
            End::Early(at) => Ok(Some(at)),
            End::Stop(stop) => Err(why_stopped(stop)),
        }
    }
}

// Whether the file is complete.
fn is_done(fed: FedRow) -> bool
    ensures { result ≡ is_complete fed }
{
    matches!(fed, FedRow::Done { .. })
}

/// What is read of a picture whose MCU rows go somewhere.
#[derive(Drop)]
pub struct RowsRead<'a> {
    /// The picture's head.
    pub head: &'a StripHead,
    /// The reader.
    pub reader: Box<Reader, Global>,
    /// Where they go.
    pub to: RowsTo<'a>,
}

impl<'a, D: Desk> PieceSink<D> for RowsRead<'a> {
    ghost kind = { of_reader rows_reader };

    fn most(&self) -> u64 {
        Limits::standard().input
    }

    fn feed(&mut self, piece: &[u8], _desk: &mut D) -> Result<bool, Why> {
        self.take_piece(piece)
    }

    fn end(&mut self, _desk: &mut D) -> Result<Option<u64>, Why> {
        self.at_end()
    }
}

/// Reads the MCU rows that began in the last piece, and those that follow; and if the file ended early, after how many
/// bytes.
pub fn read_rows<'a, D: Desk>(
    head: &'a StripHead,
    front: RowsFront,
    to: RowsTo<'a>,
    desk: &mut D,
) -> Result<(RowsRead<'a>, Option<u64>), Why>
    requires open { (D.state desk.old).input_open ≡ true }
    requires began { (keeping : Copying) × CanGoOn keeping head.now front (D.state desk.old) }
    requires none { (blocks : Blocks) → HavePut head.now.frame 0 blocks to }
    ensures { ReadsRows head.entry.now front to.entry (D.state desk.old) result (D.state desk.new) }
{
    let RowsFront {
        reader,
        piece,
        answer,
    } = front;
    let mut rows = RowsRead { head, reader, to };
    match rows.take_rows(answer, piece.as_slice()) {
        Err(why) => Err(why),
        Ok(whole) => {
            if whole {
                return Ok((rows, None));
            }
            let taken = Limits::standard().input - rows.reader.room();
            match pump_on(desk, taken, &mut rows) {
                Err(why) => Err(why),
                Ok(early) => Ok((rows, early)),
            }
        }
    }
}

impl<'a> RowsRead<'a> {
    /// Takes the MCU rows that are complete in a piece, to which this is the reader's answer. Returns whether the file is
    /// complete.
    pub fn take_rows(&mut self, answer: Result<FedRow, Stop>, piece: &[u8]) -> Result<bool, Why>
        requires { CanTakeRows self.old piece.now answer }
        ensures { TakesRows self.old piece.now answer result self.new }
    {
        let mut answer = answer;
        let mut rest = piece;
        loop {
            let fed = match answer {
                Ok(fed) => fed,
                Err(stop) => return Err(why_stopped(stop)),
            };
            let used = match fed {
                FedRow::Row { used } => used,
                FedRow::More => return Ok(false),
                FedRow::Done { .. } => return Ok(true),
            };
            match self.to.put(self.reader.row_coefs()) {
                Err(NoMemory) => return Err(Why::NoMemory),
                Ok(()) => {}
            }
            rest = &rest[used as usize..];
            answer = self.reader.feed_keeping(rest);
        }
    }

    // Takes a piece. Returns whether the file is complete.
    fn take_piece(&mut self, piece: &[u8]) -> Result<bool, Why>
        requires fed { (from : Rows) × (bytes : List ℕ) × IsRowsFed from bytes self.old }
        requires few { length piece.now ≤ 16384 }
        ensures { TakesPiece rows_reader self.old piece.now result self.new }
    {
        let answer = self.reader.feed_keeping(piece);
        self.take_rows(answer, piece)
    }

    // The input ends here. Takes the rows that are missing, and returns after how many bytes.
    fn at_end(&mut self) -> Result<Option<u64>, Why>
        requires { (from : Rows) × (bytes : List ℕ) × IsRowsFed from bytes self.old }
        ensures { TakesEnd rows_reader self.old result self.new }
    {
        match self.reader.end() {
            End::Stop(stop) => Err(why_stopped(stop)),
            End::Early(at) => match self.to.put_rest(self.reader.row_coefs()) {
                Err(NoMemory) => Err(Why::NoMemory),
                Ok(()) => Ok(Some(at)),
            },
        }
    }
}
