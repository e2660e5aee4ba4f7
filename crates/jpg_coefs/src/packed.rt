//! Blocks of which most take half of their memory: a byte for each AC, where these fit.
ghost use Rattle.std.specs.Prelude.{◌≡◌, ◌<◌, ◌≤◌, ◌≤ℤ◌, true, All, IfOk, ℕ, length, negsuc, pos, replicate, slice_index_or, slice_set};
ghost use Rattle.std.specs.Vec.{vec_capacity, vec_len};
ghost use Rattle.jpg_spec.specs.Elements.{zeros};
ghost use Rattle.jpg_coefs.specs.PackedCells.{AreShort, HasHighs, HasLows, IsByte, IsPacked, IsZeroCell, high_of, low_of, packed_blocks, room_at, short_value, whole_of};

use crate::cell::Cell;
use jpg_base::{Block, NoMemory};
use std::alloc::Global;
use std::marker::Model;
use std::vec::Vec;

/// Blocks by number. Their count is fixed.
#[derive(Drop)]
pub struct PackedBlocks {
    // The blocks.
    cells: Vec<Cell>,
    // The high bytes of those that need them; there is room for all.
    highs: Vec<[i8; 64]>,
}

impl Model for PackedBlocks {
    ghost use Rattle.std.specs.Prelude.{List, ℤ};
    ghost use Rattle.std.specs.Vec.{vec_capacity};
    ghost use Rattle.jpg_coefs.specs.PackedCells.{IsPacked, packed_blocks};

    ghost Value = { List (List ℤ) };

    ghost view = { λ p. packed_blocks p.highs.items p.cells.items };

    ghost invariant = { λ p. IsPacked p.highs.items p.cells.items (vec_capacity p.highs) };
}

// The low byte of a number.
#[inline(always)]
fn low_byte(value: i16) -> i8
    ensures { result ≡ low_of value }
{
    ((value.cast_unsigned() % 256) as u8).cast_signed()
}

// The high byte of a number.
#[inline(always)]
fn high_byte(value: i16) -> i8
    ensures { result ≡ high_of value }
{
    ((value.cast_unsigned() / 256) as u8).cast_signed()
}

// The number of these bytes.
#[inline(always)]
fn whole(high: i8, low: i8) -> i16
    ensures { result ≡ whole_of high low }
{
    (u16::from(high.cast_unsigned()) * 256 + u16::from(low.cast_unsigned())).cast_signed()
}

// Whether a number fits into a byte.
#[inline(always)]
fn is_byte(value: i16) -> bool
    ensures { result ≡ true → IsByte value }
{
    -128 <= value && value <= 127
}

// Whether all AC fit into a byte.
#[inline(always)]
fn are_short(block: &Block) -> bool
    ensures { result ≡ true → AreShort block.now }
{
    let mut short = true;
    for k in 1..64 {
        short &= is_byte(block.get(k));
    }
    short
}

// The low bytes of a block.
#[inline(always)]
fn lows(block: &Block) -> [i8; 64]
    ensures { HasLows block.now result }
{
    let mut low = [0; 64];
    for k in 0..64 {
        low[k as usize] = low_byte(block.get(k));
    }
    low
}

// The high bytes of a block.
#[cold]
#[inline(never)]
fn high_bytes(block: &Block) -> [i8; 64]
    ensures { HasHighs block.now result }
{
    let mut high = [0; 64];
    for k in 0..64 {
        high[k as usize] = high_byte(block.get(k));
    }
    high
}

// The block of a DC and of AC that fit into a byte.
#[inline(always)]
fn short_block(cell: &Cell) -> Block
    ensures is { (k : ℕ) → k < 64 → slice_index_or result k (pos 0) ≡ short_value cell.now.first cell.now.low k }
    ensures long { length result ≡ 64 }
{
    let mut values = [0; 64];
    for k in 0..64 {
        values[k] = i16::from(cell.low[k]);
    }
    values[0] = cell.first;
    Block::of(values)
}

// The block of these bytes.
#[cold]
#[inline(never)]
fn whole_block(high: &[i8; 64], low: &[i8; 64]) -> Block
    ensures is { (k : ℕ) → k < 64 → slice_index_or result k (pos 0) ≡ whole_of (slice_index_or high.now k (pos 0)) (slice_index_or low.now k (pos 0)) }
    ensures long { length result ≡ 64 }
{
    let mut values = [0; 64];
    for k in 0..64 {
        values[k] = whole(high[k], low[k]);
    }
    Block::of(values)
}

// States, for proofs, that the number fits its type. It does nothing.
#[inline(always)]
fn fits(value: i16)
    ensures { (negsuc 32767 ≤ℤ value) × (value ≤ℤ pos 32767) }
{
    let _ = value;
}

// States, for proofs, that all numbers fit their type. It does nothing.
#[inline(always)]
fn all_fit(block: &Block)
    ensures { (k : ℕ) → k < 64 → (negsuc 32767 ≤ℤ slice_index_or block.now k (pos 0)) × (slice_index_or block.now k (pos 0) ≤ℤ pos 32767) }
{
    for k in 0..64 {
        fits(block.get(k));
    }
}

// A zero block.
fn zero_cell() -> Cell
    ensures { IsZeroCell result }
{
    Cell {
        first: 0,
        room: 0,
        low: [0; 64],
    }
}

// So many zero blocks.
fn zero_cells(alloc: Global, count: usize) -> Result<Vec<Cell>, NoMemory>
    ensures count { IfOk result (λ v. vec_len v ≡ count) }
    ensures zero { IfOk result (λ v. All IsZeroCell v.items) }
{
    let Ok(mut cells) = Vec::with_capacity(alloc, count) else {
        return Err(NoMemory);
    };
    match cells.resize(count, zero_cell()) {
        Ok(()) => Ok(cells),
        Err(_) => Err(NoMemory),
    }
}

// Puts a block in the place of one that has high bytes.
#[cold]
#[inline(never)]
fn put_again(cells: &mut Vec<Cell>, highs: &mut Vec<[i8; 64]>, n: usize, block: &Block)
    requires packed { IsPacked highs.old.items cells.old.items (vec_capacity highs.old) }
    requires room { (n < length cells.old.items) × (1 ≤ room_at cells.old.items n) }
    ensures packed { IsPacked highs.new.items cells.new.items (vec_capacity highs.new) }
    ensures puts { packed_blocks highs.new.items cells.new.items ≡ slice_set (packed_blocks highs.old.items cells.old.items) n block.now }
{
    all_fit(block);
    let room = cells[n].room;
    highs[room as usize - 1] = high_bytes(block);
    cells[n] = Cell {
        first: block.get(0),
        room,
        low: lows(block),
    };
}

// Puts a block with high bytes in the place of one that has none.
#[cold]
#[inline(never)]
fn put_whole(cells: &mut Vec<Cell>, highs: &mut Vec<[i8; 64]>, n: usize, block: &Block)
    requires packed { IsPacked highs.old.items cells.old.items (vec_capacity highs.old) }
    requires room { (n < length cells.old.items) × (room_at cells.old.items n ≡ 0) }
    ensures packed { IsPacked highs.new.items cells.new.items (vec_capacity highs.new) }
    ensures puts { packed_blocks highs.new.items cells.new.items ≡ slice_set (packed_blocks highs.old.items cells.old.items) n block.now }
{
    all_fit(block);
    highs.push_reserved(high_bytes(block));
    let room = highs.len() as u32;
    cells[n] = Cell {
        first: block.get(0),
        room,
        low: lows(block),
    };
}

impl PackedBlocks {
    /// So many zero blocks. NoMemory if there is no memory for them, and for the high bytes of all.
    pub fn new(alloc: Global, count: u32) -> Result<PackedBlocks, NoMemory>
        ensures { IfOk result (λ p. p ≡ replicate count (zeros 64)) }
    {
        let cells = zero_cells(alloc, count as usize)?;
        match Vec::with_capacity(alloc, count as usize) {
            Ok(highs) => Ok(PackedBlocks { cells, highs }),
            Err(_) => Err(NoMemory),
        }
    }

    /// The block of this number.
    #[inline(always)]
    pub fn get(&self, n: usize) -> Block
        requires { n < length self.now }
        ensures { result ≡ slice_index_or self.now n (zeros 64) }
    {
        let cell = &self.cells[n];
        if cell.room == 0 {
            short_block(cell)
        } else {
            whole_block(&self.highs[cell.room as usize - 1], &cell.low)
        }
    }

    /// Puts a block in the place of that of this number. It remains a call, so that `BlockStore::set` is short.
    #[inline(never)]
    pub fn set(&mut self, n: usize, block: &Block)
        requires { n < length self.old }
        ensures { self.new ≡ slice_set self.old n block.now }
    {
        let room = self.cells[n].room;
        if room > 0 {
            put_again(&mut self.cells, &mut self.highs, n, block);
        } else if are_short(block) {
            self.cells[n] = Cell {
                first: block.get(0),
                room: 0,
                low: lows(block),
            };
        } else {
            put_whole(&mut self.cells, &mut self.highs, n, block);
        }
    }

    /// Changes the DC of the block of this number.
    #[inline(never)]
    pub fn set_dc(&mut self, n: usize, value: i16)
        requires { n < length self.old }
        ensures is { self.new ≡ slice_set self.old n (slice_set (slice_index_or self.old n (zeros 64)) 0 value) }
        ensures long { length (slice_index_or self.old n (zeros 64)) ≡ 64 }
    {
        let mut block = self.get(n);
        block.long();
        block.set(0, value);
        self.set(n, &block);
    }

    /// Makes all blocks zero.
    pub fn clear(&mut self)
        ensures { self.new ≡ replicate (length self.old) (zeros 64) }
    {
        self.cells.fill(zero_cell());
        self.highs.clear();
    }
}
