//! The data of a sequential scan, written into memory while its blocks come (T.81, F.1.2.1, F.1.2.2, E.1.4).
ghost use Rattle.std.specs.Prelude.{◌≡◌, ◌≤◌, ◌+◌, IfOk, OnOk, length};
ghost use Rattle.jpg_spec.specs.Geometry.{units};
ghost use Rattle.jpg_spec.specs.Scan.{Blocks};
ghost use Rattle.jpg_spec.specs.Segments.{head_components};
ghost use Rattle.jpg_spec_write.specs.WrittenFile.{HasBlocksIn};
ghost use Rattle.jpg_seq.specs.Reader.{IsSeqScan};
ghost use Rattle.jpg_seq.specs.ScanWritten.{written_data};

use crate::kept::KeptDesk;
use crate::scan_write::SeqUnits;
use jpg_base::{Bytes, Frame, NoMemory, ScanHead};
use jpg_coefs::{BlockView, NextUnits, ScanUnits};
use jpg_huff::{BitOut, EncoderSet};
use std::alloc::Global;

/// The data of a sequential scan, of which some first units are written into memory.
#[derive(Drop)]
pub struct KeptScan<'a> {
    // The units that are left.
    units: ScanUnits,
    // What writes them.
    sink: SeqUnits<'a>,
    // Bits and bytes that wait to be written.
    out: BitOut,
    // The bytes that are written.
    desk: KeptDesk,
}

impl<'a> KeptScan<'a> {
    ghost use Rattle.jpg_seq.specs.ScanWritten.{CanKeep, KeepsScan, WrittenScan, kept_scan};

    /// A scan of which no unit is written, by these tables, with a restart marker after each `interval` MCUs (0: none), each
    /// interval padded with ones. The header names one to four distinct components of the frame, whose tables are there. It
    /// takes no memory yet.
    #[tactic(auto, using(crate::proofs::Written::keeps_none))]
    pub fn new(
        alloc: Global,
        frame: &Frame,
        head: &'a ScanHead,
        encoders: EncoderSet<'a>,
        interval: u16,
    ) -> KeptScan<'a>
        requires { IsSeqScan frame.now head.now encoders }
        ensures keeps { (blocks : Blocks) → HasBlocksIn frame.now blocks → KeepsScan (kept_scan frame.now head.now encoders.entry interval blocks) result }
        ensures left { result.units.left ≡ length (units frame.now (head_components head.now)) }
    {
        frame.checked();
        KeptScan {
            units: ScanUnits::new(frame, head, interval),
            sink: SeqUnits { head, encoders },
            out: BitOut::new(),
            desk: KeptDesk::new(alloc),
        }
    }

    /// How many units are left.
    pub fn left(&self) -> u64
        ensures { result ≡ self.now.units.left }
    {
        self.units.left()
    }

    /// Writes the next `count` units, of a view that has the blocks of their places. A padding block has the DC value of the
    /// block before it of its component, and no AC values. After NoMemory no more may be written.
    pub fn put<V: BlockView>(&mut self, view: &V, count: u64) -> Result<(), NoMemory>
        requires some { (1 ≤ count) × (count ≤ self.old.units.left) }
        requires can { (s : WrittenScan) × CanKeep s (V.numbers view.now) (V.blocks view.now) count self.old }
        ensures puts { OnOk result ((s : WrittenScan) → CanKeep s (V.numbers view.now) (V.blocks view.now) count self.old → KeepsScan s self.new) }
        ensures left { OnOk result (self.new.units.left + count ≡ self.old.units.left) }
    {
        let next = NextUnits { view, count };
        match self
            .units
            .give(next, &mut self.sink, &mut self.out, &mut self.desk)
        {
            Ok(()) => Ok(()),
            Err(_) => Err(NoMemory),
        }
    }

    /// The data, where no unit is left.
    pub fn finish(self) -> Result<Bytes, NoMemory>
        requires all { self.units.left ≡ 0 }
        requires keeps { (s : WrittenScan) × KeepsScan s self }
        ensures { IfOk result (λ made. (s : WrittenScan) → KeepsScan s self.entry → made ≡ written_data s.frame s.head s.set s.interval s.blocks) }
    {
        let mut out = self.out;
        let mut desk = self.desk;
        match out.flush(&mut desk) {
            Ok(()) => Ok(desk.take()),
            Err(_) => Err(NoMemory),
        }
    }
}
