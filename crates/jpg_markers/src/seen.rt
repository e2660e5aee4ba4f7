//! What is remembered of segments for those after them, and which codes may follow (T.81, B.1.1.3, Table B.1).
ghost use Rattle.std.specs.Prelude.{◌≡◌, ◌||◌, ◌==◌, [], true, false};
ghost use Rattle.jpg_spec.specs.Jfif.{begins_jfif, begins_adobe};
ghost use Rattle.jpg_spec.specs.Markers.{code_fault_if, is_frame_code, is_kept_if, is_plain_adobe, is_plain_jfif, is_unexpected, is_unsupported, counted_size};
ghost use Rattle.jpg_spec.specs.declared.frame.Limits.{Limits};
ghost use Rattle.jpg_markers.specs.Seen.{Exceeds, HasSeen, Leaves, allows};

use crate::app::{begins_adobe, begins_jfif, is_adobe, is_jfif};
use jpg_base::codes::{APP0, APP15, COM, EOI, RST0, SOF0, SOF2, SOI, SOS};
use jpg_spec::Fault;

/// What is remembered of the complete segments so far.
#[derive(Clone, Copy)]
pub struct Seen {
    /// A frame header was among them.
    pub framed: bool,
    /// A scan header was.
    pub scanned: bool,
    /// A JFIF header of 14 bytes was.
    pub jfif: bool,
    /// An Adobe segment of 12 bytes was.
    pub adobe: bool,
    /// How many bytes of kept markers may follow.
    pub free: u64,
}

impl Seen {
    /// No segments, with this limit for kept markers.
    pub fn none(kept: u64) -> Seen
        ensures { (limits : Limits) → limits.kept ≡ kept → HasSeen limits result [] }
    {
        Seen {
            framed: false,
            scanned: false,
            jfif: false,
            adobe: false,
            free: kept,
        }
    }

    /// Whether the kept bytes of one more segment are within the rest of the limit.
    pub fn allows(&self, code: u8, contents: &[u8]) -> bool
        ensures is { result ≡ allows self.now code contents.now }
        ensures none { result ≡ false → Exceeds self.now code contents.now }
    {
        !is_kept(self.scanned, code, contents)
            || counted_size(self.jfif, self.adobe, code, contents) <= self.free
    }

    /// Remembers one more segment.
    pub fn note(&mut self, code: u8, contents: &[u8])
        requires { allows self.old code contents.now ≡ true }
        ensures { Leaves self.old code contents.now self.new }
    {
        if is_kept(self.scanned, code, contents) {
            self.free -= counted_size(self.jfif, self.adobe, code, contents);
            self.jfif = either(is_plain_jfif(code, contents), self.jfif);
            self.adobe = either(is_plain_adobe(code, contents), self.adobe);
        }
        self.framed = either(is_frame_code(code), self.framed);
        self.scanned = either(code == SOS, self.scanned);
    }
}

fn either(a: bool, b: bool) -> bool
    ensures { result ≡ (a || b) }
{
    a || b
}

/// Why a code may not occur here, by whether a frame header was seen (T.81, B.1.1.3, Table B.1).
pub fn code_fault(framed: bool, code: u8) -> Option<Fault>
    ensures { result ≡ code_fault_if framed code }
{
    if is_unexpected(code) || code == EOI && !framed {
        Some(Fault::UnexpectedMarker)
    } else if is_unsupported(code) {
        Some(Fault::UnsupportedProcess)
    } else if is_frame_code(code) && framed {
        Some(Fault::SecondFrame)
    } else if code == SOS && !framed {
        Some(Fault::SosBeforeSof)
    } else {
        None
    }
}

/// SOF0, SOF1 and SOF2.
pub fn is_frame_code(code: u8) -> bool
    ensures { result ≡ is_frame_code code }
{
    SOF0 <= code && code <= SOF2
}

// RES and TEM, then RST0 to SOI, and JPG0 to JPG13.
fn is_unexpected(code: u8) -> bool
    ensures { result ≡ is_unexpected code }
{
    0x01 <= code && code <= 0xbf || (RST0 <= code && code <= SOI || 0xf0 <= code && code <= 0xfd)
}

// SOF3, SOF5 to SOF15 with JPG and DAC (B.2.4.3) among them, DNL (B.2.5), DHP and EXP.
fn is_unsupported(code: u8) -> bool
    ensures { result ≡ is_unsupported code }
{
    code == 0xc3
        || (0xc5 <= code && code <= 0xcf || (code == 0xdc || (code == 0xde || code == 0xdf)))
}

/// Whether a segment is kept, by whether a scan header was before it: APPn and COM (T.81, B.2.4.5, B.2.4.6), but after a
/// scan no JFIF header and no Adobe segment (JFIF 1.02, Adobe's APP14).
pub fn is_kept(scanned: bool, code: u8, contents: &[u8]) -> bool
    ensures { result ≡ is_kept_if scanned code contents.now }
{
    (code == COM || APP0 <= code && code <= APP15) && !(scanned && is_header(code, contents))
}

/// Whether a segment begins as one that determines the colours or the density of a file: a JFIF header or an Adobe
/// segment (JFIF 1.02, Adobe's APP14).
pub fn is_header(code: u8, contents: &[u8]) -> bool
    ensures { result ≡ (begins_jfif code contents.now || begins_adobe code contents.now) }
{
    begins_jfif(code, contents) || begins_adobe(code, contents)
}

fn is_plain_jfif(code: u8, contents: &[u8]) -> bool
    ensures { result ≡ is_plain_jfif (code, contents.now) }
{
    is_jfif(code, contents) && contents.len() == 14
}

fn is_plain_adobe(code: u8, contents: &[u8]) -> bool
    ensures { result ≡ is_plain_adobe (code, contents.now) }
{
    is_adobe(code, contents) && contents.len() == 12
}

// How much a kept segment counts for the limit: its contents and 4 bytes, but nothing if it is the first JFIF header of
// 14 bytes or the first Adobe segment of 12.
fn counted_size(jfif: bool, adobe: bool, code: u8, contents: &[u8]) -> u64
    ensures { result ≡ counted_size jfif adobe (code, contents.now) }
{
    if is_plain_jfif(code, contents) && !jfif || is_plain_adobe(code, contents) && !adobe {
        0
    } else {
        contents.len() as u64 + 4
    }
}
