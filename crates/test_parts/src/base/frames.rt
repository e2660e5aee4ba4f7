// Frames by their numbers, tables of quantisers, blocks and lists of bytes.
ghost use Rattle.std.specs.Prelude.{◌≤◌};

use crate::answer::Answer;
use crate::row::{Row, large, middle, short, small, word};
use jpg_base::{Block, Component, Fault, Frame, Grid, Limits, Process, QuantTable};

const NO_COMPONENT: Component = Component {
    id: 0,
    h: 0,
    v: 0,
    quant: 0,
};

/// The process of this name.
pub fn process(text: &str, answer: &mut Answer) -> Process {
    match text {
        "Baseline" => Process::Baseline,
        "Extended" => Process::Extended,
        "Progressive" => Process::Progressive,
        _ => {
            answer.unread(text);
            Process::Baseline
        }
    }
}

/// A frame: its numbers, or its fault.
pub fn frame(row: &Row, answer: &mut Answer) {
    match frame_of(row, answer) {
        Ok(frame) => say_frame(&frame, answer),
        Err(fault) => answer.say_fault(fault),
    }
}

/// The grids of a frame.
pub fn grids(row: &Row, answer: &mut Answer) {
    match frame_of(row, answer) {
        Ok(frame) => say_grids(&frame, answer),
        Err(fault) => answer.say_fault(fault),
    }
}

// The frame of `PROCESS PRECISION WIDTH HEIGHT`, and components of three bytes each, of which there are at most five.
fn frame_of(row: &Row, answer: &mut Answer) -> Result<Frame, Fault> {
    let (name, rest) = word(row.field(0));
    let (precision, rest) = word(rest);
    let (width, height) = word(rest);
    let bytes = row.bytes(1, answer);
    let mut components = [NO_COMPONENT; 5];
    let count = components_of(bytes.as_slice(), &mut components);
    Frame::new(
        process(name, answer),
        small(precision, answer),
        large(height, answer),
        large(width, answer),
        &components[..count],
        &Limits::standard(),
    )
}

// Components, of three bytes each as in a frame header: how many.
fn components_of(bytes: &[u8], components: &mut [Component; 5]) -> usize
    ensures { result ≤ 5 }
{
    for (component, part) in components.iter_mut().zip(bytes.chunks_exact(3)) {
        if let [id, factors, quant] = part {
            *component = Component {
                id: *id,
                h: *factors / 16,
                v: *factors % 16,
                quant: *quant,
            };
        }
    }
    (bytes.len() / 3).min(5)
}

/// Adds the numbers of a frame to the text.
pub fn say_frame(frame: &Frame, answer: &mut Answer) {
    answer.say_shown(&frame.process());
    answer.say_two(u64::from(frame.width()), " by ", u64::from(frame.height()));
    for i in 0..frame.count() {
        say_component(frame.component(i), answer);
    }
}

fn say_component(component: Component, answer: &mut Answer) {
    answer.say_two(
        u64::from(component.id),
        " in slot ",
        u64::from(component.quant),
    );
    answer.say_two(u64::from(component.h), " by ", u64::from(component.v));
}

fn say_grids(frame: &Frame, answer: &mut Answer) {
    answer.say_two(u64::from(frame.h_max()), " by ", u64::from(frame.v_max()));
    say_grid(frame.mcus(), answer);
    for i in 0..frame.count() {
        say_grid(frame.blocks(i), answer);
        say_grid(frame.padded(i), answer);
    }
}

fn say_grid(grid: Grid, answer: &mut Answer) {
    answer.say_two(u64::from(grid.wide), " by ", u64::from(grid.high));
}

/// A table of ones that is changed and asked, one step for each field.
pub fn quantisers(row: &Row, answer: &mut Answer) {
    let mut table = QuantTable::ones();
    let mut kept = QuantTable::ones();
    for field in row.fields {
        table_step(field, &mut table, &mut kept, answer);
    }
}

fn table_step(field: &str, table: &mut QuantTable, kept: &mut QuantTable, answer: &mut Answer) {
    let (key, rest) = word(field);
    match key {
        "put" => put_quantiser(rest, table, answer),
        "keep" => *kept = *table,
        "turn" => *table = table.transposed(),
        "get" => {
            let place = small(rest, answer).min(63);
            answer.say_number(u64::from(table.get(place)));
        }
        "same" => answer.say(if table.is_same(kept) { "same" } else { "other" }),
        _ => answer.unread(field),
    }
}

// Puts the quantiser of `PLACE VALUE`.
fn put_quantiser(text: &str, table: &mut QuantTable, answer: &mut Answer) {
    let (place, value) = word(text);
    table.set(small(place, answer).min(63), middle(value, answer));
}

/// A block of zeros that is changed and asked, one step for each field.
pub fn block(row: &Row, answer: &mut Answer) {
    let mut block = Block::zero();
    for field in row.fields {
        block_step(field, &mut block, answer);
    }
}

fn block_step(field: &str, block: &mut Block, answer: &mut Answer) {
    let (key, rest) = word(field);
    let (place, value) = word(rest);
    let place = small(place, answer).min(63);
    match key {
        "put" => block.set(place, short(value, answer)),
        "get" => answer.say_shown(&block.get(place)),
        _ => answer.unread(field),
    }
}

/// Pieces, one for each field, in a list of bytes.
pub fn bytes(row: &Row, answer: &mut Answer) {
    for field in row.fields {
        let piece = row.spelled(field, answer);
        answer.give(piece.as_slice());
    }
}
