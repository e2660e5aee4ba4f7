//! The markers of a file that are kept (T.81, B.2.4.5, Figure B.10; B.2.4.6, Figure B.11).
ghost use Rattle.std.specs.Prelude.{◌≡◌, ◌≤◌, ◌<◌, [], ◌∷◌, ◌++◌, length, take, slice_get, Some, IfSome, IfNone, OnOk, OnErr};
ghost use Rattle.jpg_spec_write.specs.FileText.{kept_text, segment_text};
ghost use Rattle.jpg_markers.specs.Kept.{AreSegments, IsKeptSegment, kept_pair, segment_at, segments_of, with_byte_at};

use jpg_base::NoMemory;
use std::alloc::Global;
use std::marker::Model;

/// A marker segment that is kept: its code, APPn (E0 to EF) or COM (FE), and its contents, which the list lends.
#[derive(Drop)]
pub struct Kept<'a> {
    pub code: u8,
    pub contents: &'a [u8],
}

/// Kept markers, seen as the list of their codes and contents, the oldest first. Each is APPn or COM
/// and has at most 65,533 bytes. In memory they are one list of bytes, as in a file: each takes four
/// bytes and its contents.
#[derive(Drop)]
pub struct KeptList {
    bytes: Vec<u8>,
    count: usize,
}

impl Model for KeptList {
    ghost use Rattle.std.specs.Prelude.{List, ℕ, ◌≡◌, length};
    ghost use Rattle.jpg_markers.specs.Kept.{AreSegments, segments_of};

    ghost Value = { List (ℕ × List ℕ) };

    ghost view = { λ l. segments_of l.bytes.items };

    ghost invariant = { λ l. AreSegments l.bytes.items × (l.count ≡ length (segments_of l.bytes.items)) };
}

/// Kept markers that are read one after another, seen as the list of those that are left.
#[derive(Drop)]
pub struct KeptRest<'a> {
    bytes: &'a [u8],
}

impl<'a> Model for KeptRest<'a> {
    ghost use Rattle.std.specs.Prelude.{List, ℕ};
    ghost use Rattle.jpg_markers.specs.Kept.{AreSegments, segments_of};

    ghost Value = { List (ℕ × List ℕ) };

    ghost view = { λ r. segments_of r.bytes.now };

    ghost invariant = { λ r. AreSegments r.bytes.now };
}

// Appends a segment, as it is in a file. At `NoMemory` nothing has changed.
fn put_segment(bytes: &mut Vec<u8>, code: u8, contents: &[u8]) -> Result<(), NoMemory>
    requires { length contents.now ≤ 65533 }
    ensures put { OnOk result (bytes.new.items ≡ bytes.old.items ++ segment_text code contents.now) }
    ensures same { OnErr result (bytes.new.items ≡ bytes.old.items) }
{
    let before = bytes.len();
    let [high, low] = (contents.len() as u16 + 2).to_be_bytes();
    if bytes.extend_from_slice(&[0xff, code, high, low]).is_err() {
        return Err(NoMemory);
    }
    if bytes.extend_from_slice(contents).is_err() {
        bytes.truncate(before);
        return Err(NoMemory);
    }
    Ok(())
}

// The segment at the front, and the bytes after it.
fn first(bytes: &[u8]) -> (Kept<'_>, &[u8])
    requires segments { AreSegments bytes.now }
    requires some { 1 ≤ length bytes.now }
    ensures first { segments_of bytes.now ≡ kept_pair result.0 ∷ segments_of result.1.now }
    ensures kept { IsKeptSegment result.0.code result.0.contents.now }
    ensures rest { AreSegments result.1.now }
{
    let end = usize::from(u16::from_be_bytes([bytes[2], bytes[3]])) + 2;
    let marker = Kept {
        code: bytes[1],
        contents: &bytes[4..end],
    };
    (marker, &bytes[end..])
}

impl KeptList {
    /// The empty list. It takes no memory yet.
    #[tactic(auto, using(crate::proofs::KeptBytes::none_yet))]
    pub fn new(alloc: Global) -> KeptList
        ensures { result ≡ [] }
    {
        KeptList {
            bytes: Vec::new(alloc),
            count: 0,
        }
    }

    /// Adds a marker, APPn (E0 to EF) or COM (FE), with at most 65,533 bytes. At `NoMemory` nothing
    /// has changed.
    pub fn push(&mut self, code: u8, contents: &[u8]) -> Result<(), NoMemory>
        requires { IsKeptSegment code contents.now }
        ensures pushed { OnOk result (self.new ≡ self.old ++ (code, contents.now) ∷ []) }
        ensures same { OnErr result (self.new ≡ self.old) }
    {
        match put_segment(&mut self.bytes, code, contents) {
            Ok(()) => {
                self.count += 1;
                Ok(())
            }
            Err(NoMemory) => Err(NoMemory),
        }
    }

    /// How many markers there are.
    pub fn len(&self) -> usize
        ensures { result ≡ length self.now }
    {
        self.count
    }

    /// The marker at index `i`, from 0. It is found by those before it: `markers` reads them all in
    /// one way.
    pub fn get(&self, i: usize) -> Kept<'_>
        requires { i < length self.now }
        ensures value { slice_get self.now i ≡ Some (kept_pair result) }
        ensures kept { IsKeptSegment result.code result.contents.now }
    {
        let mut rest = self.bytes.as_slice();
        for _ in 0..i {
            rest = first(rest).1;
        }
        first(rest).0
    }

    // Where the segment at index `i` begins among the bytes.
    fn start_of(&self, i: usize) -> usize
        requires { i < length self.now }
        ensures { result ≡ length (kept_text (take i self.now)) }
    {
        let mut rest = self.bytes.as_slice();
        for _ in 0..i {
            rest = first(rest).1;
        }
        self.bytes.len() - rest.len()
    }

    /// Puts a byte into the contents of the marker at index `i`, at this place. All other bytes are as they were.
    pub fn set_byte(&mut self, i: usize, place: usize, value: u8)
        requires index { i < length self.old }
        requires place { place < length (segment_at self.old i).1 }
        ensures { self.new ≡ with_byte_at i place value self.old }
    {
        let at = self.start_of(i) + 4 + place;
        self.bytes[at] = value;
    }

    /// All markers, the oldest first.
    pub fn markers(&self) -> KeptRest<'_>
        ensures { result ≡ self.now }
    {
        KeptRest {
            bytes: self.bytes.as_slice(),
        }
    }
}

impl<'a> KeptRest<'a> {
    /// The next marker, None after the last.
    pub fn next(&mut self) -> Option<Kept<'a>>
        ensures next { IfSome result (λ k. self.old ≡ kept_pair k ∷ self.new) }
        ensures kept { IfSome result (λ k. IsKeptSegment k.code k.contents.now) }
        ensures end { IfNone result (self.old ≡ []) }
        ensures same { IfNone result (self.new ≡ []) }
    {
        if self.bytes.is_empty() {
            return None;
        }
        let (marker, rest) = first(self.bytes);
        self.bytes = rest;
        Some(marker)
    }
}
