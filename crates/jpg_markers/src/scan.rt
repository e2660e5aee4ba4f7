//! The scan header, parsed (T.81, B.2.3, Figure B.4; G.1.1.1).
ghost use Rattle.std.specs.Prelude.{◌≡◌, ◌*◌, ◌<◌, ◌≤◌, not, length, map, All, ℕ, List, Ok};
ghost use Rattle.jpg_spec.specs.Geometry.{Frame as Numbers};
ghost use Rattle.jpg_spec.specs.Segments.{ScanHead as Head};
ghost use Rattle.jpg_spec.specs.Lists.{index_of, is_among, is_distinct};
ghost use Rattle.jpg_spec.specs.Geometry.{factor_sum};
ghost use Rattle.jpg_spec.specs.FrameHeader.{identifiers};
ghost use Rattle.jpg_spec.specs.ScanContents.{IsHead, are_among, are_bits, are_parameters, checked_head, parsed_scan_header, parsed_ids, is_band, parsed_parts, scan_header};

use arrayvec::ArrayVec;
use jpg_base::{Frame, ScanHead};
use jpg_spec::{Fault, ScanPart};

/// The scan header of these contents in a frame, or their first fault: BadLength (not four bytes and two for each
/// component that they count), ScanComponent (not one to four components, or one that isn't in the frame or occurs
/// twice), McuTooLarge (several components of more than ten blocks per MCU), ScanParameters (only in SOF2: the band
/// isn't DC or AC of one component, or the bits aren't those of a first pass or a refinement) (T.81, B.2.3, G.1.1.1).
/// It takes no memory.
pub fn read_sos(contents: &[u8], frame: &Frame) -> Result<ScanHead, Fault>
    ensures { result ≡ scan_header frame.now contents.now }
{
    match contents {
        [count, bytes @ ..] => {
            let size = 2 * usize::from(*count);
            if bytes.len() != size + 3 {
                return Err(Fault::BadLength);
            }
            head_of(frame, *count, &bytes[..size], &bytes[size..])
        }
        _ => Err(Fault::BadLength),
    }
}

// The header made of the bytes of its components and of its band.
#[tactic(auto, unfolding(jpg_spec::specs::ScanContents::checked_head))]
fn head_of(frame: &Frame, count: u8, parts: &[u8], band: &[u8]) -> Result<ScanHead, Fault>
    requires parts { length parts.now ≡ 2 * count }
    requires band { length band.now ≡ 3 }
    ensures { result ≡ checked_head frame.now count (parsed_ids parts.now) (parsed_scan_header frame.now parts.now band.now) }
{
    if count == 0 || count > 4 || !are_known(frame, parts) || has_same(parts) {
        return Err(Fault::ScanComponent);
    }
    let head = ScanHead {
        parts: parts_of(frame, parts),
        ss: band[0],
        se: band[1],
        ah: band[2] / 16,
        al: band[2] % 16,
    };
    if count > 1 && blocks_of(frame, head.parts.as_slice()) > 10 {
        return Err(Fault::McuTooLarge);
    }
    if frame.is_progressive() && !are_parameters(frame, count, &head) {
        return Err(Fault::ScanParameters);
    }
    Ok(head)
}

// Whether a progressive scan of this many components may have the header's band and bits.
fn are_parameters(frame: &Frame, count: u8, head: &ScanHead) -> bool
    ensures { result ≡ are_parameters frame.now count head.now }
{
    is_band(count, head) && are_bits(frame, head)
}

fn is_band(count: u8, head: &ScanHead) -> bool
    ensures { result ≡ is_band count head.now }
{
    if head.ss == 0 {
        head.se == 0
    } else {
        count == 1 && (head.ss <= head.se && head.se <= 63)
    }
}

fn are_bits(frame: &Frame, head: &ScanHead) -> bool
    ensures { result ≡ are_bits frame.now head.now }
{
    (head.ah == 0 || u16::from(head.ah) == u16::from(head.al) + 1) && head.al <= frame.bounds().al
}

// Whether the frame has a component of this identifier.
fn is_known(frame: &Frame, id: u8) -> bool
    ensures { result ≡ is_among id (identifiers frame.now.components) }
{
    for i in 0..frame.count() {
        if frame.component(i).id == id {
            return true;
        }
    }
    false
}

// The index in the frame of the component of this identifier, or the number of components.
fn place_of(frame: &Frame, id: u8) -> u8
    ensures { result ≡ index_of id (identifiers frame.now.components) }
{
    for i in 0..frame.count() {
        if frame.component(i).id == id {
            return i;
        }
    }
    frame.count()
}

// Whether the frame has all components of the scan.
fn are_known(frame: &Frame, parts: &[u8]) -> bool
    ensures { result ≡ are_among frame.now (parsed_ids parts.now) }
{
    let mut rest = parts;
    while let [id, _, tail @ ..] = rest {
        if !is_known(frame, *id) {
            return false;
        }
        rest = tail;
    }
    true
}

// Whether the identifier is one of the scan's components.
fn stands(id: u8, parts: &[u8]) -> bool
    ensures { result ≡ is_among id (parsed_ids parts.now) }
{
    let mut rest = parts;
    while let [other, _, tail @ ..] = rest {
        if *other == id {
            return true;
        }
        rest = tail;
    }
    false
}

// Whether a component occurs twice in the scan.
fn has_same(parts: &[u8]) -> bool
    ensures { result ≡ not (is_distinct (parsed_ids parts.now)) }
{
    let mut rest = parts;
    while let [id, _, tail @ ..] = rest {
        if stands(*id, tail) {
            return true;
        }
        rest = tail;
    }
    false
}

// The scan's components by their indexes in the frame.
fn parts_of(frame: &Frame, parts: &[u8]) -> ArrayVec<ScanPart, 4>
    requires { length parts.now ≤ 8 }
    ensures { result.items ≡ parsed_parts frame.now parts.now }
{
    let mut list = ArrayVec::new();
    let mut rest = parts;
    while let [id, slots, tail @ ..] = rest {
        list.push(ScanPart {
            component: place_of(frame, *id),
            dc: *slots / 16,
            ac: *slots % 16,
        });
        rest = tail;
    }
    list
}

// The blocks of one MCU of these components.
fn blocks_of(frame: &Frame, parts: &[ScanPart]) -> u32
    requires few { length parts.now ≤ 4 }
    requires known { All (λ p. p.component < length frame.now.components) parts.now }
    ensures { result ≡ factor_sum frame.now (map (λ p. p.component) parts.now) }
{
    let mut blocks = 0;
    for part in parts {
        let component = frame.component(part.component);
        blocks += u32::from(component.h) * u32::from(component.v);
    }
    blocks
}

/// A scan header that is accepted has one to four distinct components of the frame, and several have at most ten blocks
/// per MCU (T.81, B.2.3).
pub fn accepted_heads_are_of_their_frames()
    ensures { (f : Numbers) (contents : List ℕ) (head : Head) → scan_header f contents ≡ Ok head → IsHead f head }
{}
