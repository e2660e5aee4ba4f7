//! Frame headers as they are written (T.81, B.2.2, Figure B.3).
ghost use Rattle.std.specs.Prelude.{◌≡◌, ◌≤◌, ◌+◌, [], ◌++◌, length, true};
ghost use Rattle.std.specs.Int.{to_be_bytes};
ghost use Rattle.arrayvec.specs.ArrayVec.{array_vec_len};
ghost use Rattle.jpg_huff.specs.BitOut.{CanSend, Sends};
ghost use Rattle.jpg_spec_write.specs.FileText.{sof_code};
ghost use Rattle.jpg_spec.specs.FrameHeader.{HasFactors};
ghost use Rattle.jpg_markers.specs.OutHead.{component_text, frame_contents, frame_segment, front_contents};

use super::head::OutHead;
use super::quants::slot_of;
use super::segment::write_segment;
use arrayvec::ArrayVec;
use jpg_base::codes::{SOF0, SOF1, SOF2};
use jpg_base::{Desk, Frame, QuantTable, WriteFault};
use jpg_huff::BitOut;
use jpg_spec::{Component, Process};

// The contents of a frame header: 6 bytes, and 3 for each of its components.
type Contents = ArrayVec<u8, 18>;

/// Writes a frame header; the slot of each component is the index of its table among the distinct ones.
pub fn write_frame<D: Desk>(
    head: &OutHead,
    distinct: &[QuantTable],
    out: &mut BitOut,
    desk: &mut D,
) -> Result<(), WriteFault>
    requires can { CanSend (D.state desk.old) out.old }
    requires few { length distinct.now ≤ 4 }
    requires tables { array_vec_len head.now.quants ≡ length head.now.frame.components }
    ensures { Sends (D.state desk.old) out.old (frame_segment distinct.now head.now) result out.new (D.state desk.new) }
{
    let contents = contents_of(&head.frame, head.quants.as_slice(), distinct);
    write_segment(
        sof_code(head.frame.process()),
        contents.as_slice(),
        out,
        desk,
    )
}

fn sof_code(process: Process) -> u8
    ensures { result ≡ sof_code process }
{
    match process {
        Process::Baseline => SOF0,
        Process::Extended => SOF1,
        Process::Progressive => SOF2,
    }
}

fn contents_of(frame: &Frame, tables: &[QuantTable], distinct: &[QuantTable]) -> Contents
    requires few { length distinct.now ≤ 4 }
    requires tables { length tables.now ≡ length frame.now.components }
    ensures { result.items ≡ frame_contents distinct.now frame.now tables.now }
{
    let mut contents = sides_of(frame);
    for i in 0..frame.count() {
        let slot = slot_of(distinct, &tables[i as usize]);
        add_component(&mut contents, &frame.component(i), slot);
    }
    contents
}

// The contents before the components.
fn sides_of(frame: &Frame) -> Contents
    ensures value { result.items ≡ front_contents frame.now }
    ensures long { array_vec_len result ≡ 6 }
{
    frame.checked();
    let [y_high, y_low] = (frame.height() as u16).to_be_bytes();
    let [x_high, x_low] = (frame.width() as u16).to_be_bytes();
    let mut contents = Contents::new();
    add(
        &mut contents,
        &[
            frame.precision(),
            y_high,
            y_low,
            x_high,
            x_low,
            frame.count(),
        ],
    );
    contents
}

fn add_component(contents: &mut Contents, component: &Component, slot: u8)
    requires room { array_vec_len contents.old ≤ 15 }
    requires factors { HasFactors component.now }
    ensures value { contents.new.items ≡ contents.old.items ++ component_text component.now slot }
    ensures more { array_vec_len contents.new ≡ array_vec_len contents.old + 3 }
{
    add(
        contents,
        &[component.id, 16 * component.h + component.v, slot],
    );
}

fn add(contents: &mut Contents, piece: &[u8])
    requires room { array_vec_len contents.old + length piece.now ≤ 18 }
    ensures value { contents.new.items ≡ contents.old.items ++ piece.now }
    ensures more { array_vec_len contents.new ≡ array_vec_len contents.old + length piece.now }
{
    match contents.try_extend_from_slice(piece) {
        Ok(()) => {}
        Err(_) => {}
    }
}
