// Frames, their scan headers, and the tables that these name.
ghost use Rattle.std.specs.Prelude.{◌≡◌, [], ◌∷◌, length, map, Some};
ghost use Rattle.jpg_spec.specs.Lists.{below};
ghost use Rattle.test_parts.specs.Heads.{part_for, head_for, HasFour};

use crate::answer::Answer;
use crate::row::{Row, large, small, word};
use arrayvec::ArrayVec;
use jpg_base::{Component, Frame, Limits, Process, ScanHead, ScanPart};
use jpg_huff::{Table, TableSet};

/// A component with these factors across and down.
pub fn part(h: u8, v: u8) -> Component {
    Component {
        id: 0,
        h,
        v,
        quant: 0,
    }
}

/// Components by their factors across and down, as `2x2 1x1`, of which there are at most four.
pub fn factors_of(text: &str, answer: &mut Answer) -> ArrayVec<Component, 4> {
    let mut list = ArrayVec::new();
    for word in text.split_whitespace() {
        let (h, v) = word.split_once('x').unwrap_or((word, ""));
        let component = part(small(h, answer), small(v, answer));
        if list.try_push(component).is_err() {
            answer.unread(word);
        }
    }
    list
}

/// The frame of a field of factors and one of `WIDTH HEIGHT`.
pub fn asked_frame(row: &Row, answer: &mut Answer) -> Option<Frame> {
    let components = factors_of(row.field(0), answer);
    let (width, height) = word(row.field(1));
    let width = large(width, answer);
    let height = large(height, answer);
    frame_of(components.as_slice(), width, height)
}

/// A baseline frame of these components, which get identifiers of their own, where there is one.
pub fn frame_of(components: &[Component], width: u32, height: u32) -> Option<Frame> {
    let mut parts = [part(0, 0); 4];
    let count = components.len().min(4);
    for (i, (own, component)) in parts.iter_mut().zip(components).enumerate() {
        *own = Component {
            id: i as u8,
            ..*component
        };
    }
    Frame::new(
        Process::Baseline,
        8,
        height,
        width,
        &parts[..count],
        &Limits::standard(),
    )
    .ok()
}

// Component 0 has tables 0, the others have tables 1.
fn part_for(component: u8) -> ScanPart
    ensures { result ≡ part_for component }
{
    let slot = component.min(1);
    ScanPart {
        component,
        dc: slot,
        ac: slot,
    }
}

fn head_for(parts: ArrayVec<ScanPart, 4>) -> ScanHead
    ensures { result ≡ head_for parts.items }
{
    ScanHead {
        parts,
        ss: 0,
        se: 63,
        ah: 0,
        al: 0,
    }
}

/// The header of a sequential scan of all components.
pub fn all_components(frame: &Frame) -> ScanHead
    ensures { result ≡ head_for (map part_for (below (length frame.now.components))) }
{
    frame.checked();
    let mut parts = ArrayVec::new();
    for i in 0..frame.count() {
        parts.push(part_for(i));
    }
    head_for(parts)
}

/// The header of a sequential scan of one component.
pub fn one_component(component: u8) -> ScanHead
    ensures { result ≡ head_for (part_for component ∷ []) }
{
    let mut parts = ArrayVec::new();
    parts.push(part_for(component));
    head_for(parts)
}

/// Two tables for DC and AC in slots 0, and two in slots 1.
pub fn tables_of(dc: &Table, ac: &Table, other_dc: &Table, other_ac: &Table) -> TableSet
    ensures { HasFour result }
{
    let mut tables = TableSet::new();
    tables.set_dc(0, dc);
    tables.set_dc(1, other_dc);
    tables.set_ac(0, ac);
    tables.set_ac(1, other_ac);
    tables
}
