//! A marker segment as it is written (T.81, B.1.1.4).
ghost use Rattle.std.specs.Prelude.{◌≤◌, length};
ghost use Rattle.jpg_spec_write.specs.FileText.{segment_text};
ghost use Rattle.jpg_comments.specs.Appending.{AppendsText};

use crate::push::push_some;
use jpg_base::{Bytes, NoMemory};

/// Appends the segment of this marker code, whose contents have at most 65,533 bytes: FF, the code, the length in two
/// bytes and the contents (T.81, B.1.1.4). On NoMemory a first part of it was appended, not
/// all of it.
pub fn append_segment(code: u8, contents: &[u8], out: &mut Bytes) -> Result<(), NoMemory>
    requires { length contents.now ≤ 65533 }
    ensures { AppendsText (segment_text code contents.now) result out.old out.new }
{
    let [high, low] = (contents.len() as u16 + 2).to_be_bytes();
    push_some(&[0xff, code, high, low], out)?;
    push_some(contents, out)
}
