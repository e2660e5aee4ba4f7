//! Application segments, parsed (JFIF 1.02, Adobe's APP14).
ghost use Rattle.std.specs.Prelude.{◌≡◌, ◌≤◌, ℕ, Some, length};
ghost use Rattle.jpg_spec.specs.Lists.{begins_with};
ghost use Rattle.jpg_spec.specs.Jfif.{begins_adobe, begins_jfif, is_jfif, is_adobe, parsed_jfif};
ghost use Rattle.jpg_markers.specs.Apps.{IsApp};

use byteorder::{BigEndian, ByteOrder};
use jpg_base::codes::{APP0, APP14};
use jpg_spec::Jfif;

/// What an application segment means.
#[derive(Clone, Copy, Debug, PartialEq, Eq)]
pub enum App {
    Jfif(Jfif),
    /// Adobe's transform.
    Adobe(u8),
    Other,
}

/// What the segment of this code means: a JFIF header is APP0 with `JFIF`, 00 and at least 14 bytes (JFIF 1.02), an
/// Adobe segment APP14 with `Adobe` and at least 12.
pub fn read_app(code: u8, contents: &[u8]) -> App
    ensures { IsApp code contents.now result }
{
    if is_jfif(code, contents) {
        return App::Jfif(header_of(contents));
    }
    if is_adobe(code, contents) {
        return App::Adobe(contents[11]);
    }
    App::Other
}

// The JFIF header of these contents.
fn header_of(contents: &[u8]) -> Jfif
    requires { 14 ≤ length contents.now }
    ensures { (code : ℕ) → result ≡ parsed_jfif (Some (code, contents.now)) }
{
    Jfif {
        seen: true,
        major: contents[5],
        minor: contents[6],
        unit: contents[7],
        x: BigEndian::read_u16(&contents[8..]),
        y: BigEndian::read_u16(&contents[10..]),
    }
}

/// Whether a segment begins as a JFIF header (JFIF 1.02).
pub(crate) fn begins_jfif(code: u8, contents: &[u8]) -> bool
    ensures { result ≡ begins_jfif code contents.now }
{
    code == APP0 && begins_with(contents, b"JFIF\0")
}

/// Whether a segment begins as Adobe's APP14.
pub(crate) fn begins_adobe(code: u8, contents: &[u8]) -> bool
    ensures { result ≡ begins_adobe code contents.now }
{
    code == APP14 && begins_with(contents, b"Adobe")
}

pub(crate) fn is_jfif(code: u8, contents: &[u8]) -> bool
    ensures { result ≡ is_jfif (code, contents.now) }
{
    begins_jfif(code, contents) && 14 <= contents.len()
}

pub(crate) fn is_adobe(code: u8, contents: &[u8]) -> bool
    ensures { result ≡ is_adobe (code, contents.now) }
{
    begins_adobe(code, contents) && 12 <= contents.len()
}

// Whether the contents begin with these bytes.
fn begins_with(contents: &[u8], front: &[u8]) -> bool
    ensures { result ≡ begins_with front.now contents.now }
{
    contents.starts_with(front)
}
