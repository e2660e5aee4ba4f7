//! The header of a scan that is written, and which tables the scan needs (T.81, B.2.3, Figure B.4).
ghost use Rattle.std.specs.Prelude.{◌≡◌, ◌<◌, ◌≤◌, ◌+◌, ◌∷◌, ◌++◌, [], if◌then◌else◌, length, map};
ghost use Rattle.jpg_spec.specs.FrameHeader.{identifiers};
ghost use Rattle.jpg_spec.specs.Segments.{needs_ac, needs_dc};
ghost use Rattle.jpg_spec_write.specs.FileText.{has_chroma, slot_for, tables_needed};
ghost use Rattle.jpg_huff.specs.BitOut.{CanSend, Sends};
ghost use Rattle.jpg_file.specs.Write.WriteScan.{interval_text, IsHeadOf, head_bytes, head_due, scan_head, scan_part};

use crate::write::tables::TablePlace;
use arrayvec::ArrayVec;
use jpg_base::codes::{DRI, SOS};
use jpg_base::{Desk, Frame, ScanHead, WriteFault};
use jpg_coefs::WrittenScan;
use jpg_huff::BitOut;
use jpg_markers::write_segment;
use jpg_scans::Entry;
use jpg_spec::{Colour, ScanPart};

/// The classes and slots of at most four components, in the order in which their tables are written.
pub type Needed = ArrayVec<TablePlace, 8>;

// Whether a scan needs DC tables.
fn needs_dc(is_prog: bool, entry: &Entry) -> bool
    ensures { result ≡ needs_dc is_prog entry.now.ss entry.now.ah }
{
    !is_prog || entry.ss == 0 && entry.ah == 0
}

// Whether a scan needs AC tables.
fn needs_ac(is_prog: bool, entry: &Entry) -> bool
    ensures { result ≡ needs_ac is_prog entry.now.ss }
{
    !is_prog || entry.ss > 0
}

/// The header of a scan. A slot that isn't needed is 0.
pub fn head_of(is_prog: bool, colour: Colour, entry: &Entry) -> ScanHead
    requires { length entry.now.components ≤ 4 }
    ensures { result ≡ scan_head is_prog colour entry.now }
{
    let has_dc = needs_dc(is_prog, entry);
    let has_ac = needs_ac(is_prog, entry);
    ScanHead {
        parts: parts_of(colour, has_dc, has_ac, entry.components.as_slice()),
        ss: if is_prog { entry.ss } else { 0 },
        se: if is_prog { entry.se } else { 63 },
        ah: if is_prog { entry.ah } else { 0 },
        al: if is_prog { entry.al } else { 0 },
    }
}

// The parts of some components, where tables of these classes are needed.
fn parts_of(colour: Colour, has_dc: bool, has_ac: bool, components: &[u8]) -> ArrayVec<ScanPart, 4>
    requires { length components.now ≤ 4 }
    ensures { result.items ≡ map (scan_part colour has_dc has_ac) components.now }
{
    let mut parts = ArrayVec::new();
    for component in components {
        let slot = slot_for(colour, *component);
        parts.push(ScanPart {
            component: *component,
            dc: if has_dc { slot } else { 0 },
            ac: if has_ac { slot } else { 0 },
        });
    }
    parts
}

// The slot of a component's tables.
fn slot_for(colour: Colour, component: u8) -> u8
    ensures { result ≡ slot_for colour component }
{
    if has_chroma(colour) && (component == 1 || component == 2) {
        1
    } else {
        0
    }
}

// Whether components 1 and 2 are chrominance.
fn has_chroma(colour: Colour) -> bool
    ensures { result ≡ has_chroma colour }
{
    match colour {
        Colour::YCbCr => true,
        Colour::Ycck => true,
        Colour::Gray => false,
        Colour::Rgb => false,
        Colour::Cmyk => false,
        Colour::Unknown => false,
    }
}

/// The classes and slots of the tables that a scan needs, per component DC and then AC.
pub fn needed_of(is_prog: bool, entry: &Entry, head: &ScanHead) -> Needed
    requires { length head.now.parts ≤ 4 }
    ensures { result.items ≡ tables_needed is_prog entry.now head.now }
{
    let has_dc = needs_dc(is_prog, entry);
    let has_ac = needs_ac(is_prog, entry);
    let mut needed = Needed::new();
    for part in head.parts.as_slice() {
        note(has_dc, (0, part.dc), &mut needed);
        note(has_ac, (1, part.ac), &mut needed);
    }
    needed
}

// Notes a class and slot, if it is needed.
fn note(is_needed: bool, place: TablePlace, needed: &mut Needed)
    requires { length needed.old.items < 8 }
    ensures items { needed.new.items ≡ needed.old.items ++ (if is_needed then place ∷ [] else []) }
    ensures few { length needed.new.items ≤ length needed.old.items + 1 }
{
    if is_needed {
        needed.push(place);
    }
}

// Writes a DRI segment, if the interval isn't the one before (T.81, B.2.4.4, Figure B.9).
fn write_interval<D: Desk>(
    last: u16,
    now: u16,
    out: &mut BitOut,
    desk: &mut D,
) -> Result<(), WriteFault>
    requires can { CanSend (D.state desk.old) out.old }
    ensures { Sends (D.state desk.old) out.old (interval_text last now) result out.new (D.state desk.new) }
{
    if now == last {
        return Ok(());
    }
    write_segment(DRI, &now.to_be_bytes(), out, desk)
}

/// Writes a DRI segment, if the interval isn't the one before, and the header of a scan.
pub fn write_head<D: Desk>(
    frame: &Frame,
    scan: WrittenScan<'_>,
    last: u16,
    out: &mut BitOut,
    desk: &mut D,
) -> Result<(), WriteFault>
    requires can { CanSend (D.state desk.old) out.old }
    requires head { IsHeadOf frame.now scan.head.now }
    ensures { Sends (D.state desk.old) out.old (head_due (identifiers frame.now.components) scan.entry.head.now last scan.entry.interval) result out.new (D.state desk.new) }
{
    write_interval(last, scan.interval, out, desk)?;
    write_segment(SOS, contents_of(frame, scan.head).as_slice(), out, desk)
}

// The contents of a scan header: the number of components, two bytes for each of them, and three for band and bits.
type Contents = ArrayVec<u8, 12>;

fn contents_of(frame: &Frame, head: &ScanHead) -> Contents
    requires { IsHeadOf frame.now head.now }
    ensures { result.items ≡ head_bytes (identifiers frame.now.components) head.now }
{
    let mut contents = Contents::new();
    contents.push(head.parts.len() as u8);
    for part in head.parts.as_slice() {
        contents.push(frame.component(part.component).id);
        contents.push(16 * part.dc + part.ac);
    }
    contents.push(head.ss);
    contents.push(head.se);
    contents.push(16 * head.ah + head.al);
    contents
}
