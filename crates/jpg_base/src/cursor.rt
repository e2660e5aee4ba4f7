//! The places of a scan, one after another (T.81, A.2.2 not interleaved, A.2.3 interleaved, A.2.4 partial MCUs).
ghost use Rattle.std.specs.Prelude.{◌≡◌, ◌<◌, ◌≤◌, ◌^◌, nat_lt, ◌&&◌, ◌*◌, ◌/◌, [], ◌∷◌, length, map, flat_map, slice_index_or, drop, slice_get, Some, All};
ghost use Rattle.jpg_spec.specs.Geometry.{units, mcu_part, mcu_units, factor_sum, scan_mcus_across};
ghost use Rattle.jpg_spec.specs.Segments.{head_components};
ghost use Rattle.jpg_base.specs.Cursor.{AreIn, HasPartFactors, cursor_part_of, lone_part, spot_of, scan_mcus_down, all_spots};
ghost use Rattle.jpg_spec.specs.declared.frame.Place.{Place as Spot};

use crate::{Frame, ScanHead};
use arrayvec::ArrayVec;
use jpg_spec::{Grid, Place, ScanPart};
use std::marker::Model;

/// A component of a scan.
#[derive(Clone, Copy, Default)]
pub struct CursorPart {
    /// Its index in the frame.
    pub component: u8,
    /// How many of its blocks an MCU has across.
    pub h: u8,
    /// How many of its blocks an MCU has down.
    pub v: u8,
    /// The columns of its real grid.
    pub wide: u32,
    /// The rows of its real grid.
    pub high: u32,
}

impl CursorPart {
    // Whether a place is in the real grid.
    fn has(&self, x: u32, y: u32) -> bool
        ensures { result ≡ (nat_lt x self.now.wide && nat_lt y self.now.high) }
    {
        x < self.wide && y < self.high
    }
}

impl CursorPart {
    // The place of a block.
    fn spot(&self, x: u32, y: u32) -> Place
        ensures { result ≡ spot_of self.now x y }
    {
        Place {
            component: self.component,
            x,
            y,
            real: self.has(x, y),
        }
    }
}

/// The remaining places of a scan, and the first of them (T.81, A.2.2, A.2.3).
#[derive(Drop)]
pub struct Cursor {
    // The components of the scan.
    parts: ArrayVec<CursorPart, 4>,
    // The columns of the grid of MCUs.
    wide: u32,
    // Its rows.
    high: u32,
    // The row of the MCU that has the first place.
    row: u32,
    // The column of that MCU.
    column: u32,
    // The index of the place's component among the parts.
    part: u8,
    // The row of its block in the MCU.
    down: u8,
    // The column of its block in the MCU.
    across: u8,
}

impl Model for Cursor {
    ghost use Rattle.std.specs.Prelude.{List};
    ghost use Rattle.jpg_spec.specs.declared.frame.Place.{Place as Spot};
    ghost use Rattle.jpg_base.specs.Cursor.{IsAt, spots_left};

    ghost Value = { List Spot };

    ghost view = { λ c. spots_left c.parts.items c.wide c.high c.row c.column c.part c.down c.across };

    ghost invariant = { λ c. IsAt c.parts.items c.wide c.high c.row c.column c.part c.down c.across };
}

// The quotient of two numbers, where it is below this bound.
fn quotient(number: u64, divisor: u32, bound: u32) -> u32
    requires some { 1 ≤ divisor }
    requires below { number < bound * divisor }
    ensures value { result ≡ number / divisor }
    ensures below { result < bound }
{
    (number / u64::from(divisor)) as u32
}

impl Frame {
    /// The grid of a scan's MCUs: the real blocks of its one component, or the frame's MCUs (T.81, A.2.2, A.2.3).
    pub fn scan_mcus(&self, head: &ScanHead) -> Grid
        requires { AreIn self.now (head_components head.now) }
        ensures wide { result.wide ≡ scan_mcus_across self.now (head_components head.now) }
        ensures high { result.high ≡ scan_mcus_down self.now (head_components head.now) }
        ensures few { (result.wide ≤ 2 ^ 20) × (result.high ≤ 2 ^ 20) }
    {
        if head.parts.len() == 1 {
            let part = self.lone_part(head.parts[0].component);
            Grid {
                wide: part.wide,
                high: part.high,
            }
        } else {
            self.mcus()
        }
    }

    // The blocks of an MCU of these components.
    fn factor_sum(&self, parts: &[ScanPart]) -> u32
        requires few { length parts.now ≤ 4 }
        requires there { All (λ p. p.component < length self.now.components) parts.now }
        ensures value { result ≡ factor_sum self.now (map (λ p. p.component) parts.now) }
        ensures few { result ≤ 64 }
    {
        let mut sum = 0;
        for part in parts {
            let component = self.component(part.component);
            sum += u32::from(component.h) * u32::from(component.v);
        }
        sum
    }

    /// How many blocks an MCU of a scan has (T.81, A.2.2, A.2.3).
    pub fn mcu_units(&self, head: &ScanHead) -> u32
        requires { AreIn self.now (head_components head.now) }
        ensures value { result ≡ mcu_units self.now (head_components head.now) }
        ensures few { result ≤ 64 }
    {
        if head.parts.len() == 1 {
            1
        } else {
            self.factor_sum(head.parts.as_slice())
        }
    }

    /// How many units a scan has.
    pub fn scan_units(&self, head: &ScanHead) -> u64
        requires { AreIn self.now (head_components head.now) }
        ensures { result ≡ length (units self.now (head_components head.now)) }
    {
        let mcus = self.scan_mcus(head);
        let row = mcus.wide * self.mcu_units(head);
        u64::from(mcus.high) * u64::from(row)
    }

    // The block with number `k` in an MCU of these components.
    fn in_mcu(&self, parts: &[ScanPart], column: u32, row: u32, k: u32) -> Place
        requires few { length parts.now ≤ 4 }
        requires there { All (λ p. p.component < length self.now.components) parts.now }
        requires column { column ≤ 2 ^ 20 }
        requires row { row ≤ 2 ^ 20 }
        requires k { k < factor_sum self.now (map (λ p. p.component) parts.now) }
        ensures { (d : Spot) → slice_index_or (flat_map (mcu_part self.now column row) (map (λ p. p.component) parts.now)) k d ≡ result }
    {
        let mut left = k;
        for part in parts {
            let part = self.cursor_part(part.component);
            let count = u32::from(part.h) * u32::from(part.v);
            if left < count {
                let x = column * u32::from(part.h) + left % u32::from(part.h);
                let y = row * u32::from(part.v) + left / u32::from(part.h);
                return part.spot(x, y);
            }
            left -= count;
        }
        CursorPart::default().spot(0, 0)
    }

    // The block of unit `unit` in a scan of one component.
    fn single_block(&self, i: u8, unit: u64) -> Place
        requires there { i < length self.now.components }
        requires unit { unit < length (units self.now (i ∷ [])) }
        ensures { (d : Spot) → slice_index_or (units self.now (i ∷ [])) unit d ≡ result }
    {
        let part = self.lone_part(i);
        let y = quotient(unit, part.wide, part.high);
        part.spot((unit % u64::from(part.wide)) as u32, y)
    }

    // The block of unit `unit` in a scan of several components.
    fn several_block(&self, parts: &[ScanPart], unit: u64) -> Place
        requires several { 2 ≤ length parts.now }
        requires few { length parts.now ≤ 4 }
        requires there { All (λ p. p.component < length self.now.components) parts.now }
        requires unit { unit < length (units self.now (map (λ p. p.component) parts.now)) }
        ensures { (d : Spot) → slice_index_or (units self.now (map (λ p. p.component) parts.now)) unit d ≡ result }
    {
        self.checked();
        let size = self.factor_sum(parts);
        let mcus = self.mcus();
        let mcu = unit / u64::from(size);
        let row = quotient(mcu, mcus.wide, mcus.high);
        let column = (mcu % u64::from(mcus.wide)) as u32;
        self.in_mcu(parts, column, row, (unit % u64::from(size)) as u32)
    }

    /// The block of unit `unit` in a scan (T.81, A.2.2, A.2.3).
    pub fn mcu_block(&self, head: &ScanHead, unit: u64) -> Place
        requires components { AreIn self.now (head_components head.now) }
        requires unit { unit < length (units self.now (head_components head.now)) }
        ensures { (d : Spot) → slice_index_or (units self.now (head_components head.now)) unit d ≡ result }
    {
        if head.parts.len() == 1 {
            self.single_block(head.parts[0].component, unit)
        } else {
            self.several_block(head.parts.as_slice(), unit)
        }
    }

    // The part of a scan's cursor for the only component of a scan.
    fn lone_part(&self, i: u8) -> CursorPart
        requires { i < length self.now.components }
        ensures value { result ≡ lone_part self.now i }
        ensures wide { (1 ≤ result.wide) × (result.wide ≤ 2 ^ 20) }
        ensures high { (1 ≤ result.high) × (result.high ≤ 2 ^ 20) }
    {
        self.checked();
        let _ = self.h_max();
        let _ = self.v_max();
        let grid = self.blocks(i);
        CursorPart {
            component: i,
            h: 1,
            v: 1,
            wide: grid.wide,
            high: grid.high,
        }
    }

    // The part of a scan's cursor for one of several components.
    fn cursor_part(&self, i: u8) -> CursorPart
        requires { i < length self.now.components }
        ensures value { result ≡ cursor_part_of self.now i }
        ensures factors { HasPartFactors result }
    {
        let component = self.component(i);
        let grid = self.blocks(i);
        CursorPart {
            component: i,
            h: component.h,
            v: component.v,
            wide: grid.wide,
            high: grid.high,
        }
    }

    // The parts of a scan of several components.
    fn cursor_parts(&self, parts: &[ScanPart]) -> ArrayVec<CursorPart, 4>
        requires few { length parts.now ≤ 4 }
        requires there { All (λ p. p.component < length self.now.components) parts.now }
        ensures value { result.items ≡ map (λ p. cursor_part_of self.now p.component) parts.now }
        ensures factors { All HasPartFactors result.items }
    {
        let mut list = ArrayVec::new();
        for part in parts {
            list.push(self.cursor_part(part.component));
        }
        list
    }
}

fn one_part(part: CursorPart) -> ArrayVec<CursorPart, 4>
    ensures { result.items ≡ part ∷ [] }
{
    let mut list = ArrayVec::new();
    list.push(part);
    list
}

impl Cursor {
    /// A cursor at the first place of a scan.
    pub fn new(frame: &Frame, head: &ScanHead) -> Cursor
        requires { AreIn frame.now (head_components head.now) }
        ensures { result ≡ units frame.now (head_components head.now) }
    {
        if head.parts.len() == 1 {
            let part = frame.lone_part(head.parts[0].component);
            Cursor::first(one_part(part), part.wide, part.high)
        } else {
            let mcus = frame.mcus();
            Cursor::first(
                frame.cursor_parts(head.parts.as_slice()),
                mcus.wide,
                mcus.high,
            )
        }
    }

    // A cursor at the first place of a grid of MCUs.
    fn first(parts: ArrayVec<CursorPart, 4>, wide: u32, high: u32) -> Cursor
        requires some { 1 ≤ length parts.items }
        requires factors { All HasPartFactors parts.items }
        requires wide { (1 ≤ wide) × (wide ≤ 2 ^ 20) }
        requires high { (1 ≤ high) × (high ≤ 2 ^ 20) }
        ensures { result ≡ all_spots parts.items wide high }
    {
        Cursor {
            parts,
            wide,
            high,
            row: 0,
            column: 0,
            part: 0,
            down: 0,
            across: 0,
        }
    }

    /// The current place.
    pub fn place(&self) -> Place
        requires { 1 ≤ length self.now }
        ensures { slice_get self.now 0 ≡ Some result }
    {
        let part = self.parts[self.part as usize];
        let x = self.column * u32::from(part.h) + u32::from(self.across);
        let y = self.row * u32::from(part.v) + u32::from(self.down);
        Place {
            component: part.component,
            x,
            y,
            real: part.has(x, y),
        }
    }

    /// Goes on to the next place.
    pub fn step(&mut self)
        requires { 1 ≤ length self.old }
        ensures { self.new ≡ drop 1 self.old }
    {
        let part = self.parts[self.part as usize];
        if self.across + 1 < part.h {
            self.across += 1;
        } else if self.down + 1 < part.v {
            self.across = 0;
            self.down += 1;
        } else if (self.part as usize) + 1 < self.parts.len() {
            self.across = 0;
            self.down = 0;
            self.part += 1;
        } else if self.column + 1 < self.wide {
            self.across = 0;
            self.down = 0;
            self.part = 0;
            self.column += 1;
        } else {
            self.across = 0;
            self.down = 0;
            self.part = 0;
            self.column = 0;
            self.row += 1;
        }
    }
}
