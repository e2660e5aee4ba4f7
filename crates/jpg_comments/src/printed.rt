//! Comments as rdjpgcom prints them (its manual in release 6b).
ghost use Rattle.std.specs.Prelude.{◌≡◌, ◌≤◌, ◌<◌, ◌++◌, ◌∷◌, false, true, not, IfSome, length, slice_index};
ghost use Rattle.memchr.specs.Find.{is_byte3};
ghost use Rattle.std.specs.List.{position};
ghost use Rattle.jpg_spec_write.specs.CommentText.{octal, printed, printed_from};
ghost use Rattle.jpg_spec.specs.Markers.{is_within};
ghost use Rattle.jpg_comments.specs.Appending.{AppendsText};
ghost use Rattle.jpg_comments.specs.Pieces.{plain_text};

use crate::push::push_some;
use jpg_base::{Bytes, NoMemory};
use memchr::memchr3;

/// Appends the comment as rdjpgcom prints it: CR as LF, LF after CR as nothing, a backslash as two, printable ASCII (32
/// to 126) as it is, any other byte as a backslash and three octal digits, and LF at the end. On NoMemory a first part
/// of that was appended, not all of it.
pub fn append_printed(comment: &[u8], out: &mut Bytes) -> Result<(), NoMemory>
    ensures { AppendsText (printed comment.now) result out.old out.new }
{
    let mut rest = comment;
    while let Some(place) = memchr3(b'\r', b'\n', b'\\', rest) {
        let (plain, others) = rest.split_at(place);
        append_plain(plain, out)?;
        let (text, behind) = first_escaped(others);
        push_some(text, out)?;
        rest = behind;
    }
    append_plain(rest, out)?;
    push_some(b"\n", out)
}

// The printed form of the line end or backslash that the bytes begin with, and the bytes after it. CR and LF are one
// line end.
fn first_escaped(bytes: &[u8]) -> (&'static [u8], &[u8])
    requires some { 1 ≤ length bytes.now }
    requires escaped { is_byte3 13 10 92 (slice_index bytes.now 0) ≡ true }
    ensures text { printed_from false bytes.now ≡ result.0.now ++ printed_from false result.1.now }
    ensures shorter { length result.1.now < length bytes.now }
{
    match bytes {
        [b'\r', b'\n', behind @ ..] | [b'\r' | b'\n', behind @ ..] => (b"\n", behind),
        [_, behind @ ..] => (b"\\\\", behind),
        [] => (b"", bytes),
    }
}

// Appends bytes without line ends and backslashes: each run of printable ASCII as it is, and other
// bytes in octal digits.
fn append_plain(bytes: &[u8], out: &mut Bytes) -> Result<(), NoMemory>
    ensures { AppendsText (plain_text bytes.now) result out.old out.new }
{
    let mut rest = bytes;
    while let Some(place) = first_unprintable(rest) {
        let (run, others) = rest.split_at(place);
        push_some(run, out)?;
        push_some(&octal(others[0]), out)?;
        rest = &others[1..];
    }
    push_some(rest, out)
}

// The place of the first byte that isn't printable ASCII.
fn first_unprintable(bytes: &[u8]) -> Option<usize>
    ensures first { result ≡ position (λ byte. not (is_within 32 126 byte)) bytes.now }
    ensures within { IfSome result (λ place. place < length bytes.now) }
{
    bytes.iter().position(|byte| !(32..=126).contains(byte))
}

// A backslash and the three octal digits of the byte.
fn octal(byte: u8) -> [u8; 4]
    ensures { result ≡ 92 ∷ octal byte }
{
    [
        b'\\',
        b'0' + byte / 64,
        b'0' + byte / 8 % 8,
        b'0' + byte % 8,
    ]
}
