//! An entry of a script's text, byte by byte (the manual's wizard.txt).
ghost use Rattle.std.specs.Prelude.{◌≡◌, ◌≤◌, [], ◌∷◌, length, IfSome};
ghost use Rattle.jpg_spec_write.specs.ScriptGrammar.{banded};
ghost use Rattle.jpg_spec.specs.TextReaders.{taken};
ghost use Rattle.jpg_scans.specs.TextState.{colon_by, ended, entry_by, entry_step, is_new_entry, new_entry, whole_entry};

use crate::Entry;
use crate::numbers::Numbers;
use arrayvec::ArrayVec;
use std::marker::Model;

// The components, once a colon was read, and the current numbers.
#[derive(Drop)]
pub struct EntryText {
    components: Option<ArrayVec<u8, 4>>,
    list: Numbers,
}

impl Model for EntryText {
    ghost use Rattle.std.specs.Prelude.{option_map};
    ghost use Rattle.jpg_scans.specs.TextState.{EntryState as State};

    ghost Value = { State };

    ghost view = { λ e. record { components = option_map (λ v. v.items) e.components; list = e.list } };
}

impl EntryText {
    pub fn new() -> EntryText
        ensures { result ≡ new_entry }
    {
        EntryText {
            components: None,
            list: Numbers::new(),
        }
    }

    // Whether nothing but space of an entry was read.
    pub fn is_new(&self) -> bool
        ensures { result ≡ is_new_entry self.now }
    {
        match self.components {
            None => self.list.is_before(),
            Some(_) => false,
        }
    }

    // Takes a byte. Returns whether it may occur there.
    pub fn byte(&mut self, byte: u8) -> bool
        ensures { taken result self.new ≡ entry_step self.old byte }
    {
        if byte == b':' {
            return self.colon();
        }
        self.list.byte(byte)
    }

    fn colon(&mut self) -> bool
        ensures { taken result self.new ≡ entry_step self.old 58 }
    {
        self.list.end();
        if !self.list.is_after() || self.components.is_some() {
            return false;
        }
        self.components = Some(self.list.copy());
        self.list = Numbers::new();
        true
    }

    // The entry, if it may end here.
    pub fn whole(&mut self) -> Option<Entry>
        ensures { result ≡ whole_entry self.old }
    {
        self.list.end();
        if !self.list.is_after() {
            return None;
        }
        let numbers = self.list.copy();
        match &self.components {
            None => Some(entry_of(copy_of(&numbers), 0, 63, 0, 0)),
            Some(components) => match numbers.as_slice() {
                [ss, se, ah, al] => Some(entry_of(copy_of(components), *ss, *se, *ah, *al)),
                _ => None,
            },
        }
    }
}

fn copy_of(numbers: &ArrayVec<u8, 4>) -> ArrayVec<u8, 4>
    ensures { result.items ≡ numbers.now.items }
{
    let mut copy = ArrayVec::new();
    let _ = copy.try_extend_from_slice(numbers.as_slice());
    copy
}

fn entry_of(components: ArrayVec<u8, 4>, ss: u8, se: u8, ah: u8, al: u8) -> Entry
    ensures { result ≡ banded components.items (ss ∷ se ∷ ah ∷ al ∷ []) }
{
    Entry {
        components,
        ss,
        se,
        ah,
        al,
    }
}
