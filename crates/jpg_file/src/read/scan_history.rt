//! The history of scans, and the quantisation tables that their components began with (T.81, B.2.4.1, G.1.1.1).
ghost use Rattle.std.specs.Prelude.{◌≡◌, ◌<◌, ◌==◌, ◌+◌, ◌∷◌, All, List, length, map, ℕ, None};
ghost use Rattle.jpg_spec.specs.History.{order_fault};
ghost use Rattle.jpg_spec.specs.InForce.{first_some};
ghost use Rattle.jpg_spec.specs.Lists.{all_of};
ghost use Rattle.jpg_spec.specs.QuantContents.{quant_in};
ghost use Rattle.jpg_spec.specs.Segments.{ScanHead as Header};
ghost use Rattle.jpg_file.specs.Read.SegmentState.{AddsScan, IsComplete, RepresentsHeads, is_same_kept, quant_if, quant_named};

use jpg_base::{Frame, QuantTable, ScanHead};
use jpg_markers::QuantSet;
use jpg_scans::Progress;
use jpg_spec::{Fault, ScanPart};

/// The history of the scans so far, from the first one on, and for each component by its index in the frame the
/// quantisation table that was in force at its first scan.
#[derive(Drop)]
pub struct ScanHistory {
    /// How many scan headers there were.
    pub scans: u64,
    pub progress: Option<Progress>,
    pub quants: [Option<QuantTable>; 4],
}

impl ScanHistory {
    /// The history before any scan.
    pub fn new() -> ScanHistory
        ensures count { result.scans ≡ 0 }
        ensures progress { result.progress ≡ None }
        ensures quants { (i : ℕ) → quant_in result.quants i ≡ None }
    {
        ScanHistory {
            scans: 0,
            progress: None,
            quants: [None, None, None, None],
        }
    }

    /// The fault of the order of scans that this scan of a frame has after those so far: RepeatedScan or Progression.
    pub fn fault(&self, frame: &Frame, head: &ScanHead) -> Option<Fault>
        requires { All (λ p. p.component < 4) head.now.parts }
        ensures { (heads : List Header) → RepresentsHeads self.now.progress frame.now heads → result ≡ order_fault frame.now heads head.now }
    {
        match &self.progress {
            Some(progress) => progress.fault(head),
            None => Progress::new(frame).fault(head),
        }
    }

    /// Takes a scan of a frame that has no such fault, with the tables in force. Its header ends with byte number `at` of
    /// the file; there were fewer scans than bytes, so that the count has room.
    pub fn note(&mut self, frame: &Frame, head: &ScanHead, quants: &QuantSet, at: u64)
        requires known { All (λ p. p.component < length frame.now.components) head.now.parts }
        requires small { All (λ p. p.component < 4) head.now.parts }
        requires room { self.old.scans < at }
        ensures { AddsScan frame.now quants.now self.old self.new head.now }
    {
        self.scans += 1;
        keep_quants(&mut self.quants, head.parts.as_slice(), frame, quants);
        match &mut self.progress {
            Some(progress) => progress.note(head),
            None => {
                let mut progress = Progress::new(frame);
                progress.note(head);
                self.progress = Some(progress);
            }
        }
    }

    /// Whether the table in force for each of these is the one that is kept for it, if one is kept.
    pub fn are_same(&self, parts: &[ScanPart], frame: &Frame, quants: &QuantSet) -> bool
        requires { All (λ p. p.component < length frame.now.components) parts.now }
        ensures { result ≡ all_of (is_same_kept self.now.quants frame.now quants.now) (map (λ p. p.component) parts.now) }
    {
        let mut rest = parts;
        while let [part, tail @ ..] = rest {
            if !self.is_same(part.component, frame, quants) {
                return false;
            }
            rest = tail;
        }
        true
    }

    // Whether the table in force for this one is the one that is kept for it, if one is kept.
    fn is_same(&self, component: u8, frame: &Frame, quants: &QuantSet) -> bool
        requires { component < length frame.now.components }
        ensures { result ≡ is_same_kept self.now.quants frame.now quants.now component }
    {
        frame.checked();
        let Some(kept) = &self.quants[component as usize] else {
            return true;
        };
        match quants.get(frame.component(component).quant) {
            Some(table) => kept.is_same(table),
            None => false,
        }
    }

    /// Whether each component of the frame was in a scan.
    pub fn is_complete(&self) -> bool
        ensures { IsComplete self.now.progress result }
    {
        match &self.progress {
            Some(progress) => progress.is_complete(),
            None => false,
        }
    }
}

// Keeps the tables in force for these, if none is kept yet.
fn keep_quants(
    kept: &mut [Option<QuantTable>; 4],
    parts: &[ScanPart],
    frame: &Frame,
    quants: &QuantSet,
)
    requires { All (λ p. p.component < length frame.now.components) parts.now }
    ensures { (i : ℕ) → quant_in kept.new i ≡ first_some (quant_in kept.old i) (quant_named frame.now quants.now parts.now i) }
{
    let mut rest = parts;
    while let [part, tail @ ..] = rest {
        keep_quant(kept, part.component, frame, quants);
        rest = tail;
    }
}

// Keeps the table in force for this one, if none is kept yet.
fn keep_quant(kept: &mut [Option<QuantTable>; 4], component: u8, frame: &Frame, quants: &QuantSet)
    requires { component < length frame.now.components }
    ensures { (i : ℕ) → quant_in kept.new i ≡ first_some (quant_in kept.old i) (quant_if frame.now quants.now (component == i) i) }
{
    frame.checked();
    if kept[component as usize].is_some() {
        return;
    }
    if let Some(table) = quants.get(frame.component(component).quant) {
        kept[component as usize] = Some(*table);
    }
}
