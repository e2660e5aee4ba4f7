//! The frame of a transformed picture (the manual of jpegtran).
ghost use Rattle.std.specs.Prelude.{◌≡◌, ◌<◌, map, true};
ghost use Rattle.jpg_spec.specs.FrameHeader.{IsFrame};
ghost use Rattle.jpg_spec_move.specs.Laws.{FirstIsGreatest};
ghost use Rattle.jpg_spec_move.specs.Moved.{exchanged_factors, grayed_frame, moved_frame, transformed_frame, trimmed_frame, whole_side};
ghost use Rattle.jpg_base.specs.Frame.{numbers_of};
ghost use Rattle.jpg_transform.specs.Places.{with_sides};
ghost use Rattle.jpg_transform.specs.Planned.{choice_view};

use crate::Choice;
use crate::table::{mirrors_across, mirrors_down, transposes};
use arrayvec::ArrayVec;
use jpg_base::Frame;
use jpg_spec::{Component, Limits};
use jpg_spec_move::Transform;

// A frame of the process of `like` with these numbers, which pass the checks.
#[tactic(auto, using(crate::proofs::MovedFrame::has_none))]
fn made(like: &Frame, width: u32, height: u32, components: &[Component]) -> Frame
    requires { IsFrame (numbers_of like.now.process like.now.precision width height components.now) }
    ensures { result ≡ numbers_of like.now.process like.now.precision width height components.now }
{
    let (process, precision) = (like.process(), like.precision());
    match Frame::new(
        process,
        precision,
        height,
        width,
        components,
        &Limits::standard(),
    ) {
        Ok(frame) => frame,
        Err(_) => unreachable!(),
    }
}

/// The frame with other sides.
#[tactic(auto, using(crate::proofs::MovedFrame::same_sides))]
pub fn with_sides(frame: &Frame, width: u32, height: u32) -> Frame
    requires { IsFrame (with_sides frame.now width height) }
    ensures { result ≡ with_sides frame.now width height }
{
    made(frame, width, height, components_of(frame).as_slice())
}

// The components of a frame.
fn components_of(frame: &Frame) -> ArrayVec<Component, 4>
    ensures { result.items ≡ frame.now.components }
{
    frame.checked();
    let mut components = ArrayVec::new();
    for i in 0..frame.count() {
        components.push(frame.component(i));
    }
    components
}

// The components with their factors exchanged.
fn exchanged(frame: &Frame) -> ArrayVec<Component, 4>
    ensures { result.items ≡ map exchanged_factors frame.now.components }
{
    frame.checked();
    let mut components = ArrayVec::new();
    for i in 0..frame.count() {
        let component = frame.component(i);
        components.push(Component {
            h: component.v,
            v: component.h,
            ..component
        });
    }
    components
}

// The frame of only the first component, untrimmed, if it is converted to grayscale.
fn grayed(frame: &Frame, gray: bool) -> Frame
    requires { gray ≡ true → FirstIsGreatest frame.now }
    ensures { result ≡ grayed_frame gray frame.now }
{
    if !gray {
        return frame.copy();
    }
    frame.checked();
    let first = Component {
        h: 1,
        v: 1,
        ..frame.component(0)
    };
    made(frame, frame.width(), frame.height(), &[first])
}

// The frame with sides and factors exchanged, where rows become columns.
fn transformed(frame: &Frame, transform: Transform) -> Frame
    ensures { result ≡ transformed_frame transform frame.now }
{
    if !transposes(transform) {
        return frame.copy();
    }
    frame.checked();
    made(
        frame,
        frame.height(),
        frame.width(),
        exchanged(frame).as_slice(),
    )
}

// A side of complete iMCUs of this size, or the side as it is if there is none.
fn whole_side(side: u32, mcu: u32) -> u32
    requires { 0 < mcu }
    ensures { result ≡ whole_side side mcu }
{
    let whole = side / mcu;
    if whole == 0 { side } else { mcu * whole }
}

// The width, of complete iMCUs where columns are mirrored.
fn trimmed_width(frame: &Frame, trim: bool, transform: Transform) -> u32
    ensures { result ≡ (trimmed_frame trim transform frame.now).width }
{
    if trim && mirrors_across(transform) {
        whole_side(frame.width(), 8 * u32::from(frame.h_max()))
    } else {
        frame.width()
    }
}

// The height, of complete iMCUs where rows are mirrored.
fn trimmed_height(frame: &Frame, trim: bool, transform: Transform) -> u32
    ensures { result ≡ (trimmed_frame trim transform frame.now).height }
{
    if trim && mirrors_down(transform) {
        whole_side(frame.height(), 8 * u32::from(frame.v_max()))
    } else {
        frame.height()
    }
}

#[tactic(auto, using(jpg_spec_move::proofs::MovedFrames::trimmed_is, crate::proofs::MovedFrame::same_sides))]
fn trimmed(frame: &Frame, trim: bool, transform: Transform) -> Frame
    ensures { result ≡ trimmed_frame trim transform frame.now }
{
    frame.checked();
    let width = trimmed_width(frame, trim, transform);
    let height = trimmed_height(frame, trim, transform);
    with_sides(frame, width, height)
}

/// The frame of a picture converted to grayscale, transformed and trimmed.
pub fn moved_frame(frame: &Frame, choice: &Choice) -> Frame
    requires { choice.now.gray ≡ true → FirstIsGreatest frame.now }
    ensures { result ≡ moved_frame (choice_view choice.now) frame.now }
{
    let gray = grayed(frame, choice.gray);
    let turned = transformed(&gray, choice.transform);
    trimmed(&turned, choice.trim, choice.transform)
}
