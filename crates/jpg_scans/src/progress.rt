//! The scans of a file so far, and which may follow (T.81, B.2.3, G.1.1.1).
ghost use Rattle.std.specs.Prelude.{◌≡◌, ◌<◌, ◌≤◌, ℕ, [], ◌∷◌, All, OnErr, List, length, option_map};
ghost use Rattle.jpg_spec.specs.Geometry.{Frame as Numbers};
ghost use Rattle.jpg_spec.specs.History.{has_begun, order_fault};
ghost use Rattle.jpg_spec.specs.Lists.{all_of, any_of, below};
ghost use Rattle.jpg_spec_write.specs.ScriptFaults.{incomplete};
ghost use Rattle.jpg_spec_write.specs.declared.picture_fault.PictureFault.TheVariants.{ScriptIncomplete};
ghost use Rattle.jpg_spec.specs.Segments.{ScanHead as Head, head_components};

use crate::sent::Sent;
use jpg_base::{Fault, Frame, ScanHead};
use jpg_spec_write::PictureFault;

/// The history of the scans of a file: for each component whether it was in a scan, and for each of its coefficients
/// the bit down to which it is known.
#[derive(Drop)]
pub struct Progress {
    is_progressive: bool,
    count: u8,
    components: [Sent; 4],
    ghost few: { count ≤ 4 },
}

impl Progress {
    ghost use Rattle.jpg_scans.specs.Progress.{begun_at, known_at, sent_of, Admits, RepresentsScans};
    ghost use Rattle.jpg_scans.specs.Sent.{first_unknown, is_next_in};

    /// The history of a file of this frame before its first scan.
    pub fn new(frame: &Frame) -> Progress
        ensures { RepresentsScans result frame.now [] }
    {
        frame.checked();
        Progress {
            is_progressive: frame.is_progressive(),
            count: frame.count(),
            components: [Sent::new(); 4],
        }
    }

    /// Takes the next scan, or returns its fault: RepeatedScan in a sequential frame, if one of its components was in a
    /// scan, or Progression in a progressive one, if it isn't the next of each of its components. After a fault nothing
    /// has changed.
    pub fn admit(&mut self, head: &ScanHead) -> Result<(), Fault>
        requires { All (λ p. p.component < 4) head.now.parts }
        ensures exact { Admits self.old head.now result self.new }
        ensures kept { OnErr result (self.new ≡ self.old) }
    {
        match self.fault(head) {
            Some(fault) => Err(fault),
            None => {
                self.note(head);
                Ok(())
            }
        }
    }

    /// The fault of a scan after those so far, as `admit` returns it.
    pub fn fault(&self, head: &ScanHead) -> Option<Fault>
        requires { All (λ p. p.component < 4) head.now.parts }
        ensures { (f : Numbers) (heads : List Head) → RepresentsScans self.now f heads → result ≡ order_fault f heads head.now }
    {
        if self.is_progressive {
            if self.are_next(head) {
                None
            } else {
                Some(Fault::Progression)
            }
        } else if self.has_any(head) {
            Some(Fault::RepeatedScan)
        } else {
            None
        }
    }

    /// Takes a scan that has no fault.
    pub fn note(&mut self, head: &ScanHead)
        requires { All (λ p. p.component < 4) head.now.parts }
        ensures { (f : Numbers) (heads : List Head) → RepresentsScans self.old f heads → RepresentsScans self.new f (head.now ∷ heads) }
    {
        for part in head.parts.as_slice() {
            self.components[part.component as usize].note(head);
        }
    }

    /// Whether each component of the frame was in a scan.
    pub fn is_complete(&self) -> bool
        ensures { (f : Numbers) (heads : List Head) → RepresentsScans self.now f heads → result ≡ all_of (has_begun heads) (below (length f.components)) }
    {
        let mut all = true;
        for i in 0..self.count {
            all = all && self.components[i as usize].is_begun;
        }
        all
    }

    /// The first coefficient that isn't known down to bit 0, component by component in zigzag order, as the fault that
    /// a script's check returns.
    #[tactic(auto, using(crate::proofs::Unknown::next_component, crate::proofs::Unknown::no_component, crate::proofs::Unknown::incomplete_is))]
    pub fn first_unknown(&self) -> Option<PictureFault>
        ensures { (f : Numbers) (heads : List Head) → RepresentsScans self.now f heads → result ≡ incomplete f heads }
    {
        for i in 0..self.count {
            let fault = self.unknown_of(i);
            if fault.is_some() {
                return fault;
            }
        }
        None
    }

    // The first such coefficient of component `i`.
    fn unknown_of(&self, i: u8) -> Option<PictureFault>
        requires { i < 4 }
        ensures { result ≡ option_map (λ k. ScriptIncomplete i k (known_at self.now i k)) (first_unknown (sent_of self.now i) 0) }
    {
        let sent = &self.components[i as usize];
        match sent.first_unknown() {
            None => None,
            Some(coefficient) => Some(PictureFault::ScriptIncomplete {
                component: i,
                coefficient,
                bit: sent.known[coefficient as usize],
            }),
        }
    }

    // Whether one of a scan's components was in an earlier scan.
    fn has_any(&self, head: &ScanHead) -> bool
        requires { All (λ p. p.component < 4) head.now.parts }
        ensures { result ≡ any_of (begun_at self.now) (head_components head.now) }
    {
        for part in head.parts.as_slice() {
            if self.components[part.component as usize].is_begun {
                return true;
            }
        }
        false
    }

    // Whether a scan is the next of each of its components.
    fn are_next(&self, head: &ScanHead) -> bool
        requires { All (λ p. p.component < 4) head.now.parts }
        ensures { result ≡ all_of (λ i. is_next_in (sent_of self.now i) head.now) (head_components head.now) }
    {
        for part in head.parts.as_slice() {
            if !self.components[part.component as usize].is_next(head) {
                return false;
            }
        }
        true
    }
}
