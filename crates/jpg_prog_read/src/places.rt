//! The places of a scan of one component, row by row (T.81, A.2.2).
ghost use Rattle.std.specs.Prelude.{◌≡◌, ◌≤◌, length, drop, slice_get, Some};
ghost use Rattle.jpg_spec.specs.Geometry.{units};
ghost use Rattle.jpg_spec.specs.Segments.{head_components};
ghost use Rattle.jpg_base.specs.Cursor.{AreIn};

use jpg_base::{Frame, Place, ScanHead};
use std::marker::Model;

/// The remaining places of such a scan.
#[derive(Drop)]
pub struct Places {
    // The component, by its index in the frame.
    component: u8,
    // The columns of its real grid.
    wide: u32,
    // Its rows.
    high: u32,
    // The column of the first place that is left.
    column: u32,
    // Its row.
    row: u32,
}

impl Model for Places {
    ghost use Rattle.std.specs.Prelude.{List};
    ghost use Rattle.jpg_spec.specs.declared.frame.Place.{Place as Spot};
    ghost use Rattle.jpg_prog_read.specs.GridPlaces.{places_from, IsAtPlace};

    ghost Value = { List Spot };

    ghost view = { λ p. places_from p.component p.wide p.high p.column p.row };

    ghost invariant = { λ p. IsAtPlace p.wide p.high p.column p.row };
}

impl Places {
    /// All places of a scan.
    pub fn new(frame: &Frame, head: &ScanHead) -> Places
        requires there { AreIn frame.now (head_components head.now) }
        requires one { length head.now.parts ≡ 1 }
        ensures { result ≡ units frame.now (head_components head.now) }
    {
        let component = head.parts[0].component;
        let grid = frame.blocks(component);
        Places {
            component,
            wide: grid.wide,
            high: grid.high,
            column: 0,
            row: 0,
        }
    }

    /// The first one.
    #[inline(always)]
    pub fn place(&self) -> Place
        requires { 1 ≤ length self.now }
        ensures { slice_get self.now 0 ≡ Some result }
    {
        Place {
            component: self.component,
            x: self.column,
            y: self.row,
            real: true,
        }
    }

    /// Goes on to the next one.
    #[inline(always)]
    pub fn step(&mut self)
        requires { 1 ≤ length self.old }
        ensures { self.new ≡ drop 1 self.old }
    {
        if self.column + 1 < self.wide {
            self.column += 1;
        } else {
            self.column = 0;
            self.row += 1;
        }
    }

    /// Goes on by so many.
    pub fn skip(&mut self, count: u32)
        requires { count ≤ length self.old }
        ensures { self.new ≡ drop count self.old }
    {
        let right = self.wide - self.column;
        if count < right {
            self.column += count;
        } else {
            let below = count - right;
            self.column = below % self.wide;
            self.row += 1 + below / self.wide;
        }
    }
}
