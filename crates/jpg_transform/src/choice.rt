//! What is asked for a picture (the manual of jpegtran), and how it is written then.
ghost use Rattle.std.specs.Prelude.{◌≡◌};
ghost use Rattle.jpg_spec_write.specs.ScansAsked.{asks_progressive};
ghost use Rattle.jpg_transform.specs.Planned.{scans_view};
ghost use Rattle.jpg_transform.specs.Places.{keeps_rows};

use crate::table::{keeps_rows, transposes};
use jpg_coefs::BlockOrder;
use jpg_file::{Orders, Plan, Restart};
use jpg_scans::Script;
use jpg_spec::Copying;
use jpg_spec_move::Transform;
use jpg_spec_write::Huffman;

/// The scans that a picture is written in.
#[derive(Drop)]
pub enum Scans {
    /// One scan, or one of each component (`Script::sequential`).
    Sequential,
    /// The progressive ones of release 6b (`Script::standard`).
    Standard,
    Given(Script),
}

impl Scans {
    /// Whether they are those of a progressive file.
    pub fn progressive(&self) -> bool
        ensures { result ≡ asks_progressive (scans_view self.now) }
    {
        match self {
            Scans::Sequential => false,
            Scans::Standard => true,
            Scans::Given(script) => script.progressive(),
        }
    }
}

/// What is asked for a picture. It is converted to grayscale, transformed and trimmed, in this order.
#[derive(Drop)]
pub struct Choice {
    /// How it is transformed.
    pub transform: Transform,
    /// Partial iMCUs that would remain in place, at the right and at the bottom, are left out.
    pub trim: bool,
    /// Only the first component is kept, with factors 1 by 1.
    pub gray: bool,
    /// Which of its kept markers are passed on.
    pub copying: Copying,
    /// The scans that it is written in.
    pub scans: Scans,
    /// Their Huffman tables.
    pub huffman: Huffman,
    /// Their restart interval.
    pub restart: Restart,
}

impl Choice {
    /// Whether rows stay rows, in their order: nothing is transformed, or it is mirrored from left to right.
    pub fn keeps_rows(&self) -> bool
        ensures { result ≡ keeps_rows self.now.transform }
    {
        keeps_rows(self.transform)
    }

    /// The orders in which to store the blocks of the picture that is read: by columns where rows become columns, so that
    /// those of the output follow one another each time that they are written. Only a progressive picture that is written
    /// in one pass is by rows, since it is read in several.
    pub fn orders(&self) -> Orders {
        if !transposes(self.transform) {
            return Orders::by_rows();
        }
        let progressive = if self.scans.progressive() {
            BlockOrder::ByColumns
        } else {
            BlockOrder::ByRows
        };
        Orders {
            sequential: BlockOrder::ByColumns,
            progressive,
        }
    }
}

/// How a picture is written for a choice.
#[derive(Drop)]
pub struct Job {
    pub plan: Plan,
    pub transform: Transform,
    pub gray: bool,
}
