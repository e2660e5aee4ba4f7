//! A script's text, byte by byte (the manual's wizard.txt).
ghost use Rattle.std.specs.Prelude.{◌≡◌};
ghost use Rattle.jpg_spec.specs.TextReaders.{taken};
ghost use Rattle.jpg_scans.specs.TextState.{new_text, script_kind, text_step};

use crate::entry_text::EntryText;
use crate::{Entry, Script};
use arrayvec::ArrayVec;
use jpg_texts::{TextBytes, is_digit};
use std::marker::Model;

// The entries that have ended, and the current one.
#[derive(Drop)]
pub struct ScriptText {
    entries: ArrayVec<Entry, 100>,
    entry: EntryText,
}

impl Model for ScriptText {
    ghost use Rattle.jpg_scans.specs.TextState.{TextState};

    ghost Value = { TextState };

    ghost view = { λ r. record { entries = r.entries.items; entry = r.entry } };
}

impl ScriptText {
    pub fn new() -> ScriptText
        ensures { result ≡ new_text }
    {
        ScriptText {
            entries: ArrayVec::new(),
            entry: EntryText::new(),
        }
    }

    fn semicolon(&mut self) -> bool
        ensures { taken result self.new ≡ text_step self.old 59 }
    {
        if self.entries.len() >= 100 {
            return false;
        }
        match self.entry.whole() {
            None => false,
            Some(entry) => {
                self.entries.push(entry);
                self.entry = EntryText::new();
                true
            }
        }
    }
}

impl TextBytes<Script> for ScriptText {
    ghost kind = { script_kind };

    fn byte(&mut self, byte: u8) -> bool {
        if byte == b';' {
            return self.semicolon();
        }
        if is_digit(byte) && (self.entry.is_new() && self.entries.len() >= 100) {
            return false;
        }
        self.entry.byte(byte)
    }

    fn end(mut self) -> Option<Script> {
        if self.entry.is_new() {
            if self.entries.is_empty() {
                return None;
            }
            return Some(Script {
                entries: self.entries,
            });
        }
        if self.entries.len() >= 100 {
            return None;
        }
        let entry = self.entry.whole()?;
        self.entries.push(entry);
        Some(Script {
            entries: self.entries,
        })
    }
}
