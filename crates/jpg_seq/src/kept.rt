//! A desk that keeps in memory what is written.
ghost use Rattle.std.specs.Prelude.{◌≡◌, [], ◌≤◌};
ghost use Rattle.jpg_base.specs.Desk.{Rose, raised};

use jpg_base::{Bytes, Counts, Desk, Got, Name, Put};
use std::alloc::Global;

/// A desk with one output, which is there from the first on and whose bytes it keeps; each of its inputs is empty. A piece
/// that finds no memory isn't written.
#[derive(Drop)]
pub(crate) struct KeptDesk {
    bytes: Bytes,
    open: bool,
    counts: Counts,
}

// Raises a count by one, unless it is the greatest number.
fn raise(count: &mut u64)
    ensures exact { count.new ≡ raised count.old }
    ensures rose { Rose count.old count.new }
    ensures kept { count.old ≤ count.new }
{
    *count = count.saturating_add(1);
}

impl KeptDesk {
    /// A desk to which nothing is written yet. It takes no memory yet.
    pub(crate) fn new(alloc: Global) -> KeptDesk
        ensures { result.bytes ≡ [] }
    {
        KeptDesk {
            bytes: Bytes::new(alloc),
            open: false,
            counts: Counts {
                opens: 0,
                reads: 0,
                writes: 0,
                says: 0,
            },
        }
    }

    /// What was written.
    pub(crate) fn take(self) -> Bytes
        ensures { result ≡ self.bytes }
    {
        self.bytes
    }
}

impl Desk for KeptDesk {
    ghost use Rattle.jpg_seq.specs.ScanWritten.{kept_state};

    ghost state = { kept_state };

    fn open(&mut self, name: &Name) -> Put {
        let _ = name;
        self.open = true;
        Put::Done
    }

    fn read(&mut self, buf: &mut [u8]) -> Got {
        let _ = buf;
        self.open = false;
        Got::End
    }

    fn create(&mut self, name: &Name) -> Put {
        let _ = name;
        raise(&mut self.counts.opens);
        Put::Failed
    }

    fn write(&mut self, piece: &[u8]) -> Put {
        match self.bytes.push_all(piece) {
            Ok(()) => Put::Done,
            Err(_) => {
                raise(&mut self.counts.writes);
                Put::Failed
            }
        }
    }

    fn say(&mut self, text: &[u8]) -> Put {
        let _ = text;
        raise(&mut self.counts.says);
        Put::Failed
    }

    fn counts(&self) -> Counts {
        self.counts
    }
}
