//! Bytes of a file that complete nothing, taken together (T.81, B.1.1).
ghost use Rattle.std.specs.Prelude.{◌≡◌, ◌<◌, ◌≤◌, ◌+◌, ◌-◌, length, min, take, Ok};
ghost use Rattle.jpg_markers.specs.Reading.{HasRoom, PassesDue, PassesSome, reading_of};

use jpg_base::NoMemory;
use jpg_markers::SegmentReader;

/// Takes all bytes from the start of these that complete nothing, fewer than are given and than the limit lets. Returns
/// how many: fill bytes after FF, or contents of a segment before its last byte; 0 if there is no memory for these.
pub fn pass_some(reader: &mut SegmentReader, most: u64, bytes: &[u8]) -> usize
    requires most { (reading_of reader.old).limits.input ≡ most }
    requires room { (reading_of reader.old).taken < most }
    requires some { 1 ≤ length bytes.now }
    ensures less { result < length bytes.now }
    ensures room { (reading_of reader.new).taken < most }
    ensures taken { (reading_of reader.new).taken ≡ (reading_of reader.old).taken + result }
    ensures limits { (reading_of reader.new).limits ≡ (reading_of reader.old).limits }
    ensures kept { HasRoom reader.old → HasRoom reader.new }
    ensures most { PassesDue reader.old (take (min (length bytes.now) (most - (reading_of reader.old).taken) - 1) bytes.now) result }
    ensures passes { PassesSome (reading_of reader.old) bytes.now (Ok result) (reading_of reader.new) }
{
    let room = most - reader.taken();
    let few = (bytes.len() as u64).min(room) as usize;
    match reader.stretch(&bytes[..few - 1]) {
        Ok(n) => n,
        Err(NoMemory) => 0,
    }
}
