//! The window that the data of a file's scans are read into: all blocks of its picture, or those of one row of MCUs (T.81,
//! A.2.3).
ghost use Rattle.std.specs.Prelude.{◌≡◌, ◌<◌, ◌≤◌, length};
ghost use Rattle.jpg_file.specs.Read.Window.{CanTake, PassesBytes, TakesBytesInto, left_in};

use crate::read::machine::ScanReader;
use crate::read::rows::RowWork;
use jpg_coefs::{Coefs, Taken};

/// The blocks that scans are read into.
#[derive(Drop)]
pub enum Window {
    /// None, before the first scan.
    None,
    /// All of the picture.
    All(Coefs),
    /// Those of an MCU row.
    Row(RowWork),
}

impl Window {
    /// Gives the machine the bits of data bytes up to the last one of the units whose blocks are among these, up to the
    /// byte whose bits end the interval, reveal a fault or wait in part: those after that unit. Returns how many bytes
    /// were given, and the result.
    pub fn take_bytes(&mut self, machine: &mut ScanReader, bytes: &[u8]) -> (usize, Taken)
        requires can { CanTake self.old machine.old }
        requires some { 1 ≤ length bytes.now }
        requires few { length bytes.now < 4294967296 }
        ensures takes { TakesBytesInto self.old machine.old bytes.now result.0 result.1 self.new machine.new }
        ensures more { PassesBytes self.old machine.old bytes.now result.0 result.1 self.new machine.new }
    {
        match self {
            Window::None => unreachable!(),
            Window::All(coefs) => machine.run(coefs, bytes),
            Window::Row(rows) => rows.take_bytes(machine, bytes),
        }
    }

    /// How many units of the current MCU row are left, if there is one.
    pub fn left(&self) -> u64
        ensures { result ≡ left_in self.now }
    {
        match self {
            Window::None => 0,
            Window::All(_) => 0,
            Window::Row(rows) => rows.left,
        }
    }
}
