// Blocks of a picture as text.
ghost use Rattle.std.specs.Prelude.{◌<◌};

use crate::answer::Answer;
use jpg_base::Block;
use jpg_coefs::{BlockView, Coefs};

/// The block of a component at a column and a row of its padded grid, where there is one.
pub fn block_at(coefs: &Coefs, component: u8, x: u64, y: u64) -> Option<Block> {
    let frame = coefs.frame();
    if component >= frame.count() {
        return None;
    }
    let grid = frame.padded(component);
    if x >= u64::from(grid.wide) || y >= u64::from(grid.high) {
        return None;
    }
    Some(coefs.block(component, x as u32, y as u32))
}

// The padded grid of a component: how wide it is, of no blocks where the frame has none, and how many blocks it has.
fn grid_of(coefs: &Coefs, component: u8) -> (u64, u64)
    ensures { 0 < result.0 }
{
    let frame = coefs.frame();
    if component >= frame.count() {
        return (1, 0);
    }
    let grid = frame.padded(component);
    let wide = u64::from(grid.wide);
    (wide.max(1), wide * u64::from(grid.high))
}

/// Adds the blocks of all components that have values other than 0, row by row, as `; COMPONENT COLUMN ROW: PLACE VALUE, ..`.
pub fn add_blocks(coefs: &Coefs, answer: &mut Answer) {
    for component in 0..coefs.frame().count() {
        add_component(coefs, component, answer);
    }
}

fn add_component(coefs: &Coefs, component: u8, answer: &mut Answer) {
    let (wide, count) = grid_of(coefs, component);
    for i in 0..count {
        if let Some(block) = block_at(coefs, component, i % wide, i / wide) {
            add_block(component, i % wide, i / wide, &block, answer);
        }
    }
}

// The values of a block other than 0, with their places in zigzag order.
fn add_block(component: u8, x: u64, y: u64, block: &Block, answer: &mut Answer) {
    let mut is_first = true;
    for k in 0..64u8 {
        if block.get(k) != 0 {
            if is_first {
                add_place(component, x, y, answer);
                is_first = false;
            } else {
                answer.add(", ");
            }
            answer.add_number(u64::from(k));
            answer.add(" ");
            answer.add_shown(&block.get(k));
        }
    }
}

fn add_place(component: u8, x: u64, y: u64, answer: &mut Answer) {
    answer.add("; ");
    answer.add_number(u64::from(component));
    answer.add(" ");
    answer.add_number(x);
    answer.add(" ");
    answer.add_number(y);
    answer.add(": ");
}

/// Adds the DC values of all blocks of a component's padded grid, row by row.
pub fn add_firsts(coefs: &Coefs, component: u8, answer: &mut Answer) {
    let (wide, count) = grid_of(coefs, component);
    for i in 0..count {
        if let Some(block) = block_at(coefs, component, i % wide, i / wide) {
            answer.add(" ");
            answer.add_shown(&block.get(0));
        }
    }
}
