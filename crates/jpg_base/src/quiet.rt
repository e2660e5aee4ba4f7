//! A desk of one file that keeps nothing of what is written.
ghost use Rattle.std.specs.Prelude.{◌≡◌, ◌<◌, length, true, IfOk};

use crate::input::Input;
use crate::{Counts, Desk, Got, Name, NoMemory, Put};
use std::alloc::Global;

/// A desk that has the same bytes for every name, and never fails. Contracts see these bytes and the rest of the input,
/// but neither outputs, nor names, nor messages.
#[derive(Drop)]
pub struct QuietDesk {
    input: Input,
    is_open: bool,
    is_created: bool,
}

impl QuietDesk {
    ghost use Rattle.jpg_base.specs.Quiet.{quiet_state, IsNewQuiet};

    /// A desk with these bytes for every name, with no input and no output yet. Returns NoMemory if there is no
    /// memory for a copy.
    pub fn new(alloc: Global, bytes: &[u8]) -> Result<QuietDesk, NoMemory>
        ensures { IfOk result (λ desk. IsNewQuiet bytes.now (quiet_state desk)) }
    {
        let Ok(bytes) = bytes.to_vec(alloc) else {
            return Err(NoMemory);
        };
        Ok(QuietDesk {
            input: Input { bytes, at: 0 },
            is_open: false,
            is_created: false,
        })
    }
}

impl Desk for QuietDesk {
    ghost use Rattle.jpg_base.specs.Desk.{Opens, Reads, Creates, Writes, Says};
    ghost use Rattle.jpg_base.specs.Quiet.{quiet_state, quiet_answer, no_failures};

    ghost state = { quiet_state };

    fn open(&mut self, name: &Name) -> Put
        ensures desk { Opens (quiet_state self.old) name.now result (quiet_state self.new) }
        ensures done { result ≡ Put.Done }
    {
        let _ = name;
        self.input.at = 0;
        self.is_open = true;
        Put::Done
    }

    fn read(&mut self, buf: &mut [u8]) -> Got
        requires open { (quiet_state self.old).input_open ≡ true }
        requires room { 0 < length buf.old }
        ensures desk { Reads (quiet_state self.old) result buf.new (quiet_state self.new) }
        ensures open { (quiet_state self.new).input_open ≡ true }
        ensures exact { result ≡ quiet_answer self.old (length buf.old) }
    {
        self.input.give(u32::MAX, buf)
    }

    fn create(&mut self, name: &Name) -> Put
        ensures desk { Creates (quiet_state self.old) name.now result (quiet_state self.new) }
        ensures done { result ≡ Put.Done }
    {
        let _ = name;
        self.is_created = true;
        Put::Done
    }

    fn write(&mut self, piece: &[u8]) -> Put
        requires { (quiet_state self.old).output_created ≡ true }
        ensures desk { Writes (quiet_state self.old) piece.now result (quiet_state self.new) }
        ensures done { result ≡ Put.Done }
    {
        let _ = piece;
        Put::Done
    }

    fn say(&mut self, text: &[u8]) -> Put
        ensures desk { Says (quiet_state self.old) text.now result (quiet_state self.new) }
        ensures done { result ≡ Put.Done }
    {
        let _ = text;
        Put::Done
    }

    fn counts(&self) -> Counts
        ensures { result ≡ no_failures }
    {
        Counts {
            opens: 0,
            reads: 0,
            writes: 0,
            says: 0,
        }
    }
}
