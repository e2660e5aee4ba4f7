//! A segment that is complete at the front of some bytes (T.81, B.1.1.4).
ghost use Rattle.std.specs.Prelude.{◌≡◌, ◌≤◌, ℕ, List, length, replicate, take, IfSome, IfNone};
ghost use Rattle.jpg_spec.specs.Markers.{SpellsSegment};
ghost use Rattle.jpg_markers.specs.Reading.{filled, HasNoSegment, IsSized};

use byteorder::{BigEndian, ByteOrder};

/// A segment at the front of some bytes: its marker's code, its contents, and how many bytes it takes, fill bytes and
/// its marker among them.
#[derive(Drop)]
pub struct WholeSegment<'a> {
    pub code: u8,
    pub contents: &'a [u8],
    pub length: usize,
}

// How many bytes FF there are at the front in groups of eight.
fn filled_groups(bytes: &[u8]) -> usize
    ensures within { result ≤ length bytes.now }
    ensures filled { take result bytes.now ≡ replicate result 255 }
{
    let mut rest = bytes;
    let mut n = 0;
    while let Some((group, tail)) = rest.split_first_chunk::<8>() {
        if *group != [0xff; 8] {
            break;
        }
        rest = tail;
        n += 8;
    }
    n
}

/// How many of these bytes, from the first on, are fill bytes FF.
pub fn fill_length(bytes: &[u8]) -> usize
    ensures filled { result ≡ filled bytes.now }
    ensures all { take result bytes.now ≡ replicate result 255 }
    ensures within { result ≤ length bytes.now }
{
    let mut n = filled_groups(bytes);
    while n < bytes.len() && bytes[n] == 0xff {
        n += 1;
    }
    n
}

// The code and the contents of a segment after the FF of its marker, if it is complete; the code is any byte.
#[tactic(auto, using(crate::proofs::Continuing::is_sized))]
fn sized_at(bytes: &[u8]) -> Option<(u8, &[u8])>
    ensures sized { IfSome result (λ s. IsSized s.0 s.1.now bytes.now) }
    ensures none { IfNone result ((code : ℕ) (contents : List ℕ) → IsSized code contents bytes.now → ⊥) }
{
    let [code, high, low, rest @ ..] = bytes else {
        return None;
    };
    let size = BigEndian::read_u16(&[*high, *low]) as usize;
    if size < 2 || rest.len() < size - 2 {
        return None;
    }
    Some((*code, &rest[..size - 2]))
}

/// The segment at the front of these bytes, perhaps after fill bytes, if it is complete.
pub fn segment_at(bytes: &[u8]) -> Option<WholeSegment<'_>>
    ensures spelled { IfSome result (λ s. SpellsSegment s.code s.contents.now (take s.length bytes.now)) }
    ensures within { IfSome result (λ s. (1 ≤ s.length) × (s.length ≤ length bytes.now)) }
    ensures none { IfNone result (HasNoSegment bytes.now) }
{
    let fill = fill_length(bytes);
    let Some((code, contents)) = sized_at(&bytes[fill..]) else {
        return None;
    };
    if fill == 0 || code == 0 {
        return None;
    }
    Some(WholeSegment {
        code,
        contents,
        length: fill + 3 + contents.len(),
    })
}
