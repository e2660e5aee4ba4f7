//! The restart interval, parsed (T.81, B.2.4.4, Figure B.9).
ghost use Rattle.std.specs.Prelude.{◌≡◌};
ghost use Rattle.jpg_spec.specs.ScanContents.{restart_interval};

use byteorder::{BigEndian, ByteOrder};
use jpg_spec::Fault;

/// The MCUs of a restart interval, from the two bytes of its segment. Contents of any other length are BadLength (T.81,
/// B.2.4.4).
pub fn read_dri(contents: &[u8]) -> Result<u16, Fault>
    ensures { result ≡ restart_interval contents.now }
{
    if contents.len() != 2 {
        return Err(Fault::BadLength);
    }
    Ok(BigEndian::read_u16(contents))
}
