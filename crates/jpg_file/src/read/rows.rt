//! The current MCU row of a scan of all components (T.81, A.2.3).
ghost use Rattle.std.specs.Prelude.{◌≡◌, ◌<◌, ◌≤◌, ◌+◌, IfOk, ℕ, List, [], length};
ghost use Rattle.jpg_spec.specs.Geometry.{Frame as Numbers, units};
ghost use Rattle.jpg_spec.specs.Segments.{head_components};
ghost use Rattle.jpg_base.specs.Cursor.{AreIn, scan_mcus_down};
ghost use Rattle.jpg_seq.specs.Reader.{IsRowOf, top_of};
ghost use Rattle.jpg_file.specs.Read.Machine.{waits_of};
ghost use Rattle.jpg_file.specs.Read.Window.{CanTake, PassesBytes, TakesBitsInto, TakesBytesInto};
ghost use Rattle.jpg_file.specs.declared.read.window.Window.TheVariants as window;
ghost use Rattle.jpg_file.specs.Read.Strips.{PassesRowBits};
ghost use Rattle.jpg_file.specs.Read.InData.{IsRowIn, KeepsRowIn, TurnsRow, block_rows_of, unfinished, zero_picture};

use crate::read::machine::ScanReader;
use jpg_base::{BitStore, Frame, NoMemory, ScanHead};
use jpg_coefs::{Coefs, ScanMachine, Taken};
use std::alloc::Global;

/// The current MCU row of a scan of all components (T.81, A.2.3).
#[derive(Drop)]
pub struct RowWork {
    /// Its blocks.
    pub coefs: Coefs,
    /// By component, the row of its grid at which this MCU row begins.
    pub tops: [u32; 4],
    /// By component, how many rows of its grid an MCU row has.
    pub steps: [u32; 4],
    /// Units of an MCU row.
    pub units: u64,
    /// Units that are left of this one.
    pub left: u64,
    /// How many MCU rows follow.
    pub later: u32,
    /// Bits after its last unit, which wait.
    pub waiting: BitStore,
}

// The rows of blocks of component `i` in an MCU row: one if it is the only component, none if there is no such
// component.
fn rows_of(frame: &Frame, i: u8) -> u32
    ensures { result ≡ block_rows_of frame.now i }
{
    if i >= frame.count() {
        0
    } else if frame.count() == 1 {
        1
    } else {
        u32::from(frame.component(i).v)
    }
}

// By component, the rows of blocks in an MCU row.
fn steps_of(frame: &Frame) -> [u32; 4]
    ensures { (i : ℕ) → top_of result i ≡ block_rows_of frame.now i }
{
    frame.checked();
    [
        rows_of(frame, 0),
        rows_of(frame, 1),
        rows_of(frame, 2),
        rows_of(frame, 3),
    ]
}

// The rows at which the next MCU row begins.
fn next_tops(tops: &[u32; 4], steps: &[u32; 4]) -> [u32; 4]
    requires { (i : ℕ) → top_of tops.now i + top_of steps.now i < 4294967296 }
    ensures { (i : ℕ) → top_of result i ≡ top_of tops.now i + top_of steps.now i }
{
    [
        tops[0] + steps[0],
        tops[1] + steps[1],
        tops[2] + steps[2],
        tops[3] + steps[3],
    ]
}

impl RowWork {
    /// The first MCU row of a scan of all components of a frame.
    pub fn new(alloc: Global, frame: &Frame, head: &ScanHead) -> Result<RowWork, NoMemory>
        requires there { AreIn frame.now (head_components head.now) }
        requires all { length (head_components head.now) ≡ length frame.now.components }
        ensures zero { IfOk result (λ w. IsRowOf w.tops (zero_picture frame.now) w.coefs) }
        ensures at { IfOk result (λ w. IsRowIn frame.now (head_components head.now) w (length (units frame.now (head_components head.now)))) }
        ensures waiting { IfOk result (λ w. w.waiting ≡ []) }
        ensures first { IfOk result (λ w. w.left ≡ w.units) }
        ensures count { IfOk result (λ w. unfinished w ≡ scan_mcus_down frame.now (head_components head.now)) }
    {
        frame.checked();
        let mcus = frame.scan_mcus(head);
        let units = u64::from(mcus.wide) * u64::from(frame.mcu_units(head));
        let coefs = Coefs::new(alloc, &frame.row())?;
        Ok(RowWork {
            coefs,
            tops: [0; 4],
            steps: steps_of(frame),
            units,
            left: units,
            later: mcus.high - 1,
            waiting: BitStore::new(),
        })
    }

    /// Goes to the next MCU row, if this one is complete and there is one.
    pub fn next(&mut self)
        requires { (f : Numbers) × (components : List ℕ) × (left : ℕ) × IsRowIn f components self.old left }
        ensures at { KeepsRowIn self.old self.new }
        ensures of { TurnsRow self.old self.new }
        ensures waiting { self.new.waiting ≡ self.old.waiting }
    {
        if self.left > 0 || self.later == 0 {
            return;
        }
        self.coefs.clear();
        self.tops = next_tops(&self.tops, &self.steps);
        self.left = self.units;
        self.later -= 1;
    }

    /// Gives the machine bits up to the last one of the units of this MCU row. Those after it wait.
    pub fn take_bits(&mut self, machine: &mut ScanReader, mut store: BitStore) -> Taken
        requires { CanTake (window.Row self.old) machine.old }
        ensures takes { TakesBitsInto (window.Row self.old) machine.old store result (window.Row self.new) machine.new }
        ensures more { PassesRowBits self.old machine.old store result self.new machine.new }
    {
        let ScanReader::Sequential(machine) = machine else {
            unreachable!();
        };
        let before = machine.units_left();
        let taken = machine.bits_from(&mut store, &mut self.coefs, &self.tops, self.left);
        self.left -= before - machine.units_left();
        self.waiting = waiting_of(taken, store);
        taken
    }

    /// Gives the machine the bits of data bytes up to the last one of the units of this MCU row, as a window's.
    pub fn take_bytes(&mut self, machine: &mut ScanReader, bytes: &[u8]) -> (usize, Taken)
        requires can { CanTake (window.Row self.old) machine.old }
        requires some { 1 ≤ length bytes.now }
        requires few { length bytes.now < 4294967296 }
        ensures takes { TakesBytesInto (window.Row self.old) machine.old bytes.now result.0 result.1 (window.Row self.new) machine.new }
        ensures more { PassesBytes (window.Row self.old) machine.old bytes.now result.0 result.1 (window.Row self.new) machine.new }
    {
        let ScanReader::Sequential(machine) = machine else {
            unreachable!();
        };
        let before = machine.units_left();
        let got = machine.bytes(bytes, &mut self.coefs, &self.tops, self.left);
        self.left -= before - machine.units_left();
        let given = got.bits.div_ceil(8) as usize;
        let mut last = BitStore::new();
        last.push(bytes[given - 1]);
        last.skip((got.bits - 8 * (given as u64 - 1)) as u8);
        self.waiting = waiting_of(got.taken, last);
        (given, got.taken)
    }
}

// The bits that wait, where these follow those that were taken.
fn waiting_of(taken: Taken, rest: BitStore) -> BitStore
    ensures { result ≡ waits_of taken rest }
{
    match taken {
        Taken::Units => rest,
        _ => BitStore::new(),
    }
}
