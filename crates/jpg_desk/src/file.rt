//! Files read to their end or up to a limit, in the pieces that a desk gives.
ghost use Rattle.std.specs.Prelude.{◌≡◌, ◌≤◌, length, true};
ghost use Rattle.jpg_base.specs.Desk.{Reads};
ghost use Rattle.jpg_desk.specs.Reading.{FitsRoom};
ghost use Rattle.jpg_desk.specs.BytesTaken.{AfterBytes, bytes_kind, why_of_file};
ghost use Rattle.jpg_desk.specs.Stays.{Keeps, OnlyReads};
ghost use Rattle.jpg_desk.specs.FileTaken.{AfterFile};

use crate::pieces::{PieceSink, pump};
use jpg_base::{Bytes, Desk, Got, Name, Put};
use jpg_spec_words::{Which, Why};
use std::alloc::Global;

/// Reads into the buffer, but no more bytes than there is room for; at least one, if there is none.
pub fn read_within<D: Desk>(desk: &mut D, room: u64, buffer: &mut [u8]) -> Got
    requires open { (D.state desk.old).input_open ≡ true }
    requires some { 1 ≤ length buffer.old }
    ensures read { Reads (D.state desk.old) result buffer.new (D.state desk.new) }
    ensures within { FitsRoom room result }
{
    let most = room.clamp(1, buffer.len() as u64) as usize;
    desk.read(&mut buffer[..most])
}

/// The bytes of the file of this name, up to a limit, which isn't 0. A fault names the file.
#[tactic(auto, using(crate::proofs::FilesTaken::file_taken))]
pub fn take_file<D: Desk>(
    alloc: Global,
    name: &Name,
    limit: usize,
    which: Which,
    desk: &mut D,
) -> Result<Bytes, Why>
    requires { 1 ≤ limit }
    ensures kept { Keeps (D.state desk.old) (D.state desk.new) }
    ensures after { AfterFile name.now limit which (D.state desk.old) result (D.state desk.new) }
{
    match desk.open(name) {
        Put::Failed => Err(Why::OpenFault(which)),
        Put::Done => take_bytes(alloc, limit as u64, which, desk),
    }
}

// The bytes of the open input, up to a limit.
fn take_bytes<D: Desk>(alloc: Global, limit: u64, which: Which, desk: &mut D) -> Result<Bytes, Why>
    requires some { 1 ≤ limit }
    requires open { (D.state desk.old).input_open ≡ true }
    ensures kept { OnlyReads (D.state desk.old) (D.state desk.new) }
    ensures after { AfterBytes limit which (D.state desk.old) result (D.state desk.new) }
{
    let mut sink = BytesSink {
        bytes: Bytes::new(alloc),
        limit,
    };
    match pump(desk, &mut sink) {
        Ok(_) => {
            let BytesSink { bytes, .. } = sink;
            Ok(bytes)
        }
        Err(why) => Err(why_of_file(why, which)),
    }
}

// Why there are no bytes: a fault of the input is one of this file.
fn why_of_file(why: Why, which: Which) -> Why
    ensures { result ≡ why_of_file why which }
{
    match why {
        Why::ReadFault(_) => Why::ReadFault(which),
        other => other,
    }
}

// The bytes so far of an input that is read to its end, or up to a limit.
#[derive(Drop)]
struct BytesSink {
    bytes: Bytes,
    limit: u64,
}

impl<D: Desk> PieceSink<D> for BytesSink {
    ghost kind = { bytes_kind };

    fn most(&self) -> u64 {
        self.limit
    }

    fn feed(&mut self, piece: &[u8], _desk: &mut D) -> Result<bool, Why> {
        match self.bytes.push_all(piece) {
            Ok(()) => Ok(self.bytes.as_slice().len() as u64 >= self.limit),
            Err(_) => Err(Why::NoMemory),
        }
    }

    fn end(&mut self, _desk: &mut D) -> Result<Option<u64>, Why> {
        Ok(None)
    }
}
