// The places of a scan, by a cursor and by the number of the unit.
ghost use Rattle.jpg_spec.specs.Segments.{head_components};
ghost use Rattle.jpg_base.specs.Cursor.{AreIn};

use crate::answer::Answer;
use crate::row::{Row, small};
use crate::scans::heads::{all_components, asked_frame, factors_of, frame_of, one_component, part};
use jpg_base::{Component, Cursor, Frame, Place, ScanHead};

/// The places of the scan of all components of a frame.
pub fn places(row: &Row, answer: &mut Answer) {
    match asked_frame(row, answer) {
        Some(frame) => say_all(&frame, answer),
        None => answer.say("no frame"),
    }
}

fn say_all(frame: &Frame, answer: &mut Answer) {
    frame.checked();
    say_places(frame, &all_components(frame), answer);
}

// The places of a scan in their order, by a cursor. Their numbers have to give the same places.
fn say_places(frame: &Frame, head: &ScanHead, answer: &mut Answer)
    requires { AreIn frame.now (head_components head.now) }
{
    let mut cursor = Cursor::new(frame, head);
    for unit in 0..frame.scan_units(head) {
        let place = cursor.place();
        add_place(place, answer);
        if place != frame.mcu_block(head, unit) {
            answer.say("another place by its number");
        }
        cursor.step();
    }
}

// A place as `COMPONENT:COLUMN,ROW`, with a minus sign where it has padding.
fn add_place(place: Place, answer: &mut Answer) {
    if !answer.is_silent() {
        answer.add(" ");
    }
    answer.add_number(u64::from(place.component));
    answer.add(":");
    answer.add_number(u64::from(place.x));
    answer.add(",");
    answer.add_number(u64::from(place.y));
    answer.add(if place.real { "" } else { "-" });
}

// A place as one number.
fn number(place: Place) -> u64 {
    let first = u64::from(place.component) * 2 + u64::from(place.real);
    first
        .wrapping_mul(1 << 40)
        .wrapping_add(u64::from(place.y).wrapping_mul(1 << 20))
        .wrapping_add(u64::from(place.x))
}

// A sum over the places of a scan in their order, each times a power of 31. None where the cursor and the
// numbers of the units disagree.
fn sum_of_places(frame: &Frame, head: &ScanHead) -> Option<u64>
    requires { AreIn frame.now (head_components head.now) }
{
    let mut cursor = Cursor::new(frame, head);
    let mut sum: u64 = 0;
    for unit in 0..frame.scan_units(head) {
        let place = cursor.place();
        if place != frame.mcu_block(head, unit) {
            return None;
        }
        sum = sum.wrapping_mul(31).wrapping_add(number(place));
        cursor.step();
    }
    Some(sum)
}

// The sum over the places of the scan of all components of a frame.
fn sum_of_all(frame: &Frame) -> Option<u64> {
    frame.checked();
    sum_of_places(frame, &all_components(frame))
}

// The sum over the places of the scan of one component of a frame, where it has this one.
fn sum_of_one(frame: &Frame, component: u8) -> Option<u64> {
    if component >= frame.count() {
        return None;
    }
    sum_of_places(frame, &one_component(component))
}

// A sum of sums goes on, by the places of all components and then of each alone.
fn with_frame(sum: u64, components: &[Component]) -> Option<u64> {
    let frame = frame_of(components, 75, 43)?;
    let mut sum = sum.wrapping_mul(1000003).wrapping_add(sum_of_all(&frame)?);
    for i in 0..frame.count() {
        let one = sum_of_one(&frame, i)?;
        sum = sum.wrapping_mul(1000003).wrapping_add(one);
    }
    Some(sum)
}

// Two to four components: this first one, `a` across of the second, and all down of this one.
fn sum_across(sum: u64, count: u8, first: Component, a: u8) -> Option<u64> {
    let mut sum = sum;
    let (h, v) = (first.h, first.v);
    for b in 1..=4 {
        let parts = [
            first,
            part(a, b),
            part(b, if count == 3 { v } else { h }),
            part(v, a),
        ];
        let many = (count as usize).clamp(2, 4);
        sum = with_frame(sum, &parts[..many])?;
    }
    Some(sum)
}

fn family_sum(count: u8, first: Component) -> Option<u64> {
    let mut sum = 0;
    for a in 1..=4 {
        sum = sum_across(sum, count, first, a)?;
    }
    Some(sum)
}

/// The sum over the places of all frames of so many components whose first one has these factors.
pub fn sum(row: &Row, answer: &mut Answer) {
    let count = small(row.field(0), answer);
    let factors = factors_of(row.field(1), answer);
    let first = match factors.as_slice() {
        [first] => *first,
        _ => part(0, 0),
    };
    match family_sum(count, first) {
        Some(sum) => answer.say_number(sum),
        None => answer.say("none"),
    }
}
