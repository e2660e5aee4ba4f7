//! The outside as a trait. A function that is generic over it can't raise a count by itself.
ghost use Rattle.std.specs.Prelude.{◌≡◌, ◌<◌, ◌≤◌, length, true};
ghost use Rattle.jpg_base.specs.Desk.{raised, Rose, DeskState, Opens, Reads, Creates, Writes, Says};

use crate::{Counts, Got, Name, Put};

/// Files, an input, outputs and messages.
///
/// A call returns `Failed` only if the count of its kind rises in that call, or is already `u64::MAX`. No count falls.
/// What isn't mentioned for a call doesn't change in it.
pub trait Desk {
    /// The state that contracts see: the bytes of each file, the rest of the input, the outputs, the messages and the
    /// names that were opened or created, each only if the desk knows it.
    ghost state: { Self → DeskState };

    /// Makes the named file the input, read from its first byte. After `Failed`, which counts as an
    /// open, no input is open.
    fn open(&mut self, name: &Name) -> Put
        ensures { Opens (state self.old) name.now result (state self.new) };

    /// Puts at least one of the next bytes of the input at the start of `buf`, and gives their number, which is at most
    /// `buf.len()` and `u32::MAX`. It returns `End` exactly if no bytes are left. `Failed` counts as a read, and
    /// takes no bytes. The rest of `buf` may hold anything.
    ///
    /// An input must be open, and `buf` may not be empty. After `End` and `Failed` no input counts as open, so code
    /// that is generic over desks reads no further.
    fn read(&mut self, buf: &mut [u8]) -> Got
        requires open { (state self.old).input_open ≡ true }
        requires room { 0 < length buf.old }
        ensures { Reads (state self.old) result buf.new (state self.new) };

    /// Adds an empty output of this name. `Failed` counts as an open, and adds none.
    fn create(&mut self, name: &Name) -> Put
        ensures { Creates (state self.old) name.now result (state self.new) };

    /// Appends the complete piece to the last output. At `Failed`, which counts as a write, it has appended a first
    /// part of it, perhaps nothing.
    ///
    /// An output must have been created.
    fn write(&mut self, piece: &[u8]) -> Put
        requires { (state self.old).output_created ≡ true }
        ensures { Writes (state self.old) piece.now result (state self.new) };

    /// Appends the complete text to the messages. At `Failed`, which counts as a say, it has appended a first part of
    /// it, perhaps nothing.
    fn say(&mut self, text: &[u8]) -> Put
        ensures { Says (state self.old) text.now result (state self.new) };

    /// How often each kind of call has failed so far.
    fn counts(&self) -> Counts
        ensures { result ≡ (state self.now).counts };
}

/// Raises a count by one, unless it is the greatest number.
pub fn raise(count: &mut u64)
    ensures exact { count.new ≡ raised count.old }
    ensures rose { Rose count.old count.new }
    ensures kept { count.old ≤ count.new }
{
    *count = count.saturating_add(1);
}
