//! Rows of samples of one component.
ghost use Rattle.std.specs.Prelude.{◌≡◌, ◌<◌, ◌≤◌, ◌+◌, ◌*◌, ◌/◌, ◌^◌, ◌⊎◌, ℕ, IfOk, [], length, take, drop, min, slice_index, slice_index_or};
ghost use Rattle.jpg_spec.specs.Geometry.{component_at};
ghost use Rattle.jpg_spec.specs.FrameHeader.{padded_down};
ghost use Rattle.jpg_coefs.specs.Picture.{map_of};
ghost use Rattle.jpg_color.specs.KeptRows.{HasRows, stride, kept_rows_of, last_row, sample_of, with_gray, with_block_rows};
ghost use Rattle.jpg_color.specs.RowBytes.{PutsBlock, PutsRows};

use crate::decode::blocks::samples_by;
use jpg_base::{NoMemory, QuantTable};
use jpg_coefs::{BlockView, Coefs};
use jpg_dct::Multipliers;
use std::alloc::Global;
use std::marker::Model;
use std::simd::u8x64;
use std::vec::Vec;

/// Rows of samples that blocks of a component have.
#[derive(Clone, Copy)]
pub struct ComponentRows<'a> {
    /// The coefficients.
    pub coefs: &'a Coefs,
    /// The component's index in the frame.
    pub component: u8,
    /// Its quantisation table.
    pub quants: &'a QuantTable,
    /// The row of its blocks that they begin with.
    pub first: u32,
    /// How many rows of samples they are.
    pub count: u32,
}

// Where rows of a block of samples go.
#[derive(Clone, Copy)]
struct BlockPlace {
    // How many bytes a row takes.
    line: usize,
    // The row that the block's first one goes to.
    row: usize,
    // How many blocks of that row are left of it.
    column: usize,
    // How many of its rows go there.
    rows: usize,
}

/// Some rows of samples of one component, one below the other: those of the last blocks, and the row above them.
#[derive(Drop)]
pub struct SampleRows {
    // Samples of a row.
    wide: u32,
    // The most rows, at most 33.
    room: u32,
    // How many rows there are.
    len: u32,
    // The rows, each in whole blocks of eight samples, with room for all.
    samples: Vec<u8>,
}

impl Model for SampleRows {
    ghost use Rattle.std.specs.Prelude.{◌≡◌, ◌*◌, ◌≤◌};
    ghost use Rattle.std.specs.Vec.{vec_len};
    ghost use Rattle.jpg_color.specs.KeptRows.{KeptRows, stride, kept_rows_of};

    ghost Value = { KeptRows };

    ghost view = { λ r. record { wide = r.wide; room = r.room; rows = kept_rows_of r.wide r.len r.samples.items } };

    ghost invariant = { λ r. (1 ≤ r.wide) × (r.wide ≤ 65500) × (r.room ≤ 33) × (r.len ≤ r.room) × (vec_len r.samples ≡ r.room * stride r.wide) };
}

// How many bytes a row takes.
fn line_of(wide: u32) -> usize
    requires { wide ≤ 65500 }
    ensures value { result ≡ stride wide }
    ensures fits { (wide ≤ result) × (result ≤ 65504) }
{
    8 * wide.div_ceil(8) as usize
}

fn part(samples: &[u8], start: usize, wide: usize) -> &[u8]
    requires { start + wide ≤ length samples.now }
    ensures value { result.now ≡ take wide (drop start samples.now) }
    ensures long { length result.now ≡ wide }
{
    &samples[start..start + wide]
}

// Row y of a block of samples.
#[inline(always)]
fn put_eight(samples: &mut [u8], at: usize, block: &[u8; 64], y: usize)
    requires place { at + 8 ≤ length samples.old }
    requires row { y < 8 }
    ensures long { length samples.new ≡ length samples.old }
    ensures there { (x : ℕ) → x < 8 → slice_index samples.new (at + x) ≡ slice_index block.now (8 * y + x) }
    ensures others { (k : ℕ) → ((k < at) ⊎ (at + 8 ≤ k)) → slice_index samples.new k ≡ slice_index samples.old k }
{
    samples[at..at + 8].copy_from_slice(&block[8 * y..8 * y + 8]);
}

// The eight rows of a block of samples.
#[inline(always)]
fn put_whole(samples: &mut [u8], place: BlockPlace, block: &[u8; 64])
    requires across { 8 * place.column + 8 ≤ place.line }
    requires down { (place.row + 8) * place.line ≤ length samples.old }
    requires small { (place.line ≤ 65504) × (place.row + 8 ≤ 33) }
    ensures { PutsBlock place.line place.row place.column 8 block.now samples.old samples.new }
{
    for y in 0..8 {
        let at = (place.row + y) * place.line + 8 * place.column;
        put_eight(samples, at, block, y);
    }
}

// The first rows of a block of samples.
#[inline(never)]
fn put_some(samples: &mut [u8], place: BlockPlace, block: &[u8; 64])
    requires rows { place.rows ≤ 8 }
    requires across { 8 * place.column + 8 ≤ place.line }
    requires down { (place.row + place.rows) * place.line ≤ length samples.old }
    requires small { (place.line ≤ 65504) × (place.row + place.rows ≤ 33) }
    ensures { PutsBlock place.line place.row place.column place.rows block.now samples.old samples.new }
{
    for y in 0..place.rows {
        let at = (place.row + y) * place.line + 8 * place.column;
        put_eight(samples, at, block, y);
    }
}

// The same. Where it is all of them, their number is known when it is compiled.
#[inline(always)]
fn put_block(samples: &mut [u8], place: BlockPlace, block: u8x64)
    requires rows { place.rows ≤ 8 }
    requires across { 8 * place.column + 8 ≤ place.line }
    requires down { (place.row + place.rows) * place.line ≤ length samples.old }
    requires small { (place.line ≤ 65504) × (place.row + place.rows ≤ 33) }
    ensures { PutsBlock place.line place.row place.column place.rows block samples.old samples.new }
{
    let bytes = block.as_array();
    if place.rows == 8 {
        put_whole(samples, place, bytes);
    } else {
        // a copy, so that the place isn't stored in memory where all rows are put
        put_some(samples, BlockPlace { ..place }, bytes);
    }
}

// Puts rows of the samples of one row of blocks, from row `row` on.
fn put_row_of_blocks(samples: &mut [u8], wide: u32, row: usize, of: ComponentRows<'_>)
    requires wide { (1 ≤ wide) × (wide ≤ 65500) }
    requires rows { (1 ≤ of.count) × (of.count ≤ 8) × (row + of.count ≤ 33) }
    requires room { (row + of.count) * stride wide ≤ length samples.old }
    requires there { HasRows of.coefs.now of.component of.first wide of.count }
    ensures { PutsRows (stride wide) row of.entry.count (stride wide) (sample_of of.entry) samples.old samples.new }
{
    let line = line_of(wide);
    let steps = Multipliers::new(&of.quants.values());
    for x in 0..wide.div_ceil(8) {
        let block = samples_by(
            &of.coefs.block(of.component, x, of.first),
            of.quants,
            &steps,
        );
        let place = BlockPlace {
            line,
            row,
            column: x as usize,
            rows: of.count as usize,
        };
        put_block(samples, place, block);
    }
}

// States, for proofs, that the rows of blocks of a component have numbers of 32 bits. It does nothing.
#[inline(always)]
fn rows_fit(coefs: &Coefs, i: u8)
    requires { i < length coefs.now.frame.components }
    ensures { padded_down coefs.now.frame (component_at coefs.now.frame i) < 2 ^ 32 }
{
    let _ = coefs.frame().padded(i).high;
}

// Puts these rows after the first `kept` ones.
fn put_rows(samples: &mut [u8], wide: u32, kept: usize, of: ComponentRows<'_>)
    requires wide { (1 ≤ wide) × (wide ≤ 65500) }
    requires rows { kept + of.count ≤ 33 }
    requires room { (kept + of.count) * stride wide ≤ length samples.old }
    requires there { HasRows of.coefs.now of.component of.first wide of.count }
    ensures { PutsRows (stride wide) kept of.entry.count (stride wide) (sample_of of.entry) samples.old samples.new }
{
    rows_fit(of.coefs, of.component);
    for b in 0..of.count.div_ceil(8) {
        let part = ComponentRows {
            first: of.first + b,
            count: (of.count - 8 * b).min(8),
            ..of
        };
        put_row_of_blocks(samples, wide, kept + 8 * b as usize, part);
    }
}

// Puts `count` rows of 128 after the first `kept` ones.
#[tactic(auto, using(crate::proofs::GrayRows::gray_put, crate::proofs::GrayRows::part_filled))]
fn put_gray(samples: &mut [u8], wide: u32, kept: usize, count: usize)
    requires wide { (1 ≤ wide) × (wide ≤ 65500) }
    requires rows { kept + count ≤ 33 }
    requires room { (kept + count) * stride wide ≤ length samples.old }
    ensures { PutsRows (stride wide) kept count (stride wide) (λ y x. 128) samples.old samples.new }
{
    let line = line_of(wide);
    samples[kept * line..(kept + count) * line].fill(128);
}

// Moves the last of `len` rows to the start. Returns how many rows are there then.
#[tactic(auto, using(crate::proofs::RowsPut::last_kept))]
fn keep_last(samples: &mut [u8], wide: u32, len: u32) -> u32
    requires wide { wide ≤ 65500 }
    requires few { len ≤ 33 }
    requires room { len * stride wide ≤ length samples.old }
    ensures one { result ≤ 1 }
    ensures some { result ≤ len }
    ensures long { length samples.new ≡ length samples.old }
    ensures rows { kept_rows_of wide result samples.new ≡ last_row (kept_rows_of wide len samples.old) }
{
    if len == 0 {
        return 0;
    }
    let line = line_of(wide);
    let last = (len - 1) as usize * line;
    samples.copy_within(last..last + line, 0);
    1
}

impl SampleRows {
    /// Room for `room` rows of `wide` samples each, none of which is there. Returns NoMemory if there is no memory
    /// for them.
    pub fn new(alloc: Global, wide: u32, room: u32) -> Result<SampleRows, NoMemory>
        requires wide { (1 ≤ wide) × (wide ≤ 65500) }
        requires room { (1 ≤ room) × (room ≤ 33) }
        ensures { IfOk result (λ r. r ≡ record { wide = wide; room = room; rows = [] }) }
    {
        let bytes = room as usize * line_of(wide);
        let Ok(mut samples) = Vec::with_capacity(alloc, bytes) else {
            return Err(NoMemory);
        };
        match samples.resize(bytes, 0) {
            Ok(()) => Ok(SampleRows {
                wide,
                room,
                len: 0,
                samples,
            }),
            Err(_) => Err(NoMemory),
        }
    }

    /// How many rows there are.
    #[tactic(auto, using(crate::proofs::RowsPut::rows_count))]
    pub fn len(&self) -> u32
        ensures { result ≡ length self.now.rows }
    {
        self.len
    }

    /// The row at index `i`, from 0.
    pub fn row(&self, i: u32) -> &[u8]
        requires { i < length self.now.rows }
        ensures value { result.now ≡ slice_index_or self.now.rows i [] }
        ensures wide { length result.now ≡ self.now.wide }
    {
        part(
            &self.samples,
            i as usize * line_of(self.wide),
            self.wide as usize,
        )
    }

    /// Keeps the last row, and adds these rows, made of blocks (T.81, A.3.3, A.3.4).
    pub fn fill(&mut self, of: ComponentRows<'_>)
        requires room { of.count < self.old.room }
        requires there { HasRows of.coefs.now of.component of.first self.old.wide of.count }
        ensures { self.new ≡ with_block_rows self.old of.entry.quants.now (map_of of.entry.coefs.now) of.entry.component of.entry.first of.entry.count }
    {
        let wide = self.wide;
        let kept = keep_last(&mut self.samples, wide, self.len);
        put_rows(&mut self.samples, wide, kept as usize, of);
        self.len = kept + of.count;
    }

    /// Keeps the last row, and adds `count` rows of 128: those of zero blocks.
    pub fn fill_gray(&mut self, count: u32)
        requires room { count < self.old.room }
        ensures { self.new ≡ with_gray self.old count }
    {
        let wide = self.wide;
        let kept = keep_last(&mut self.samples, wide, self.len);
        put_gray(&mut self.samples, wide, kept as usize, count as usize);
        self.len = kept + count;
    }
}
