//! Scan scripts: parsed, made by default, and checked on a frame (T.81, B.2.3, G.1.1.1).
ghost use Rattle.std.specs.Prelude.{◌≡◌, ◌<◌, ◌≤◌, length, slice_get, Some};
ghost use Rattle.jpg_spec_write.specs.Script.{sequential_script, is_progressive_script};
ghost use Rattle.jpg_spec_write.specs.ScriptGrammar.{TellsScript};
ghost use Rattle.jpg_scans.specs.Judged.{judged};
ghost use Rattle.jpg_spec_write.specs.ScriptFaults.{script_fault, standard_script, three_colours_script, any_colours_script};

use crate::Entry;
use crate::check::fault_of;
use crate::own::{Band, push_all, push_each, push_one};
use crate::text_reader::ScriptText;
use arrayvec::ArrayVec;
use jpg_base::{Colour, Fault, FaultAt, Frame};
use jpg_spec_write::PictureFault;
use jpg_texts::read_text;
use std::marker::Model;

/// The scans that a file is written in: 1 to 100 entries.
#[derive(Drop)]
pub struct Script {
    pub(crate) entries: ArrayVec<Entry, 100>,
}

impl Model for Script {
    ghost use Rattle.std.specs.Prelude.{◌≤◌, List, length};
    ghost use Rattle.jpg_spec_write.specs.Script.{Entry as Scan};

    ghost Value = { List Scan };

    ghost view = { λ s. s.entries.items };

    ghost invariant = { λ s. (1 ≤ length s.entries.items) × (length s.entries.items ≤ 100) };
}

impl Script {
    /// The script that a text encodes, in the form of script files (the manual's wizard.txt): 1 to 100 entries of one
    /// to four components, and perhaps a colon and Ss, Se, Ah and Al, with semicolons between. Otherwise ScriptText at
    /// the first byte that no such text has there, at the text's end if it ends too early, or at 65537 if it is longer
    /// than 65536 bytes.
    pub fn parse(text: &[u8]) -> Result<Script, FaultAt>
        ensures { TellsScript text.now result }
    {
        read_text(text, ScriptText::new(), Fault::ScriptText)
    }

    /// One scan of all components, or one of each if there are several and an MCU of all would have more than ten
    /// blocks (T.81, B.2.3).
    pub fn sequential(frame: &Frame) -> Script
        ensures { result ≡ sequential_script frame.now }
    {
        let mut entries = ArrayVec::new();
        push_all(&mut entries, frame, Band::new(0, 63, 0, 0));
        Script { entries }
    }

    /// The scans of `-progressive`: DC down to bit 1 and then the low and the high AC down to bit 2, and then
    /// refinements down to bit 0. For YCbCr these are the ten scans of release 6b, which send all AC of the chrominance
    /// components at once.
    pub fn standard(frame: &Frame, colour: Colour) -> Script
        ensures { result ≡ standard_script frame.now colour }
    {
        let entries = match colour {
            Colour::YCbCr => three_colours(frame),
            _ => any_colours(frame),
        };
        Script { entries }
    }

    /// Whether files of this frame may be written in it, or else its first fault, entry by entry: ScriptComponent (a
    /// component that isn't in the frame, or they don't ascend), ScriptMcu (several of more than ten blocks an MCU),
    /// ScriptBand (the band, Ah or Al isn't allowed there, or a sequential scan isn't one of all coefficients or
    /// repeats a component); and at the end ScriptIncomplete with the first coefficient that isn't known down to bit 0.
    /// Its first entry decides whether it is progressive.
    #[tactic(auto, unfolding(jpg_spec_write::specs::ScriptFaults::script_fault))]
    pub fn check(&self, frame: &Frame) -> Result<(), PictureFault>
        ensures { result ≡ judged (script_fault frame.now self.now) }
    {
        match fault_of(self.entries.as_slice(), self.progressive(), frame) {
            None => Ok(()),
            Some(fault) => Err(fault),
        }
    }

    /// How many entries it has.
    pub fn len(&self) -> u8
        ensures value { result ≡ length self.now }
        ensures some { 1 ≤ result }
        ensures few { result ≤ 100 }
    {
        self.entries.len() as u8
    }

    /// A copy of the script.
    pub fn copy(&self) -> Script
        ensures { result ≡ self.now }
    {
        let mut entries = ArrayVec::new();
        for entry in self.entries.as_slice() {
            entries.push(entry.copy());
        }
        Script { entries }
    }

    /// The entry with index `i`, from 0.
    pub fn entry(&self, i: u8) -> Entry
        requires { i < length self.now }
        ensures { slice_get self.now i ≡ Some result }
    {
        self.entries.as_slice()[i as usize].copy()
    }

    /// Whether it is a script of a progressive file: its first scan isn't one of all coefficients.
    pub fn progressive(&self) -> bool
        ensures { result ≡ is_progressive_script self.now }
    {
        match self.entries.as_slice() {
            [first, ..] => !(first.ss == 0 && first.se == 63),
            [] => false,
        }
    }
}

// The scans of YCbCr, with all AC of each chrominance component at once.
fn three_colours(frame: &Frame) -> ArrayVec<Entry, 100>
    ensures items { result.items ≡ three_colours_script frame.now }
    ensures some { 1 ≤ length result.items }
{
    let mut entries = ArrayVec::new();
    push_all(&mut entries, frame, Band::new(0, 0, 0, 1));
    push_one(&mut entries, 0, Band::new(1, 5, 0, 2));
    push_one(&mut entries, 2, Band::new(1, 63, 0, 1));
    push_one(&mut entries, 1, Band::new(1, 63, 0, 1));
    push_one(&mut entries, 0, Band::new(6, 63, 0, 2));
    push_one(&mut entries, 0, Band::new(1, 63, 2, 1));
    push_all(&mut entries, frame, Band::new(0, 0, 1, 0));
    push_one(&mut entries, 2, Band::new(1, 63, 1, 0));
    push_one(&mut entries, 1, Band::new(1, 63, 1, 0));
    push_one(&mut entries, 0, Band::new(1, 63, 1, 0));
    entries
}

fn any_colours(frame: &Frame) -> ArrayVec<Entry, 100>
    ensures items { result.items ≡ any_colours_script frame.now }
    ensures some { 1 ≤ length result.items }
{
    let mut entries = ArrayVec::new();
    push_all(&mut entries, frame, Band::new(0, 0, 0, 1));
    push_each(&mut entries, frame, Band::new(1, 5, 0, 2));
    push_each(&mut entries, frame, Band::new(6, 63, 0, 2));
    push_each(&mut entries, frame, Band::new(1, 63, 2, 1));
    push_all(&mut entries, frame, Band::new(0, 0, 1, 0));
    push_each(&mut entries, frame, Band::new(1, 63, 1, 0));
    entries
}
