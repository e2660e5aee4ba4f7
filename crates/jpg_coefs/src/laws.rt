//! Laws over the definitions of this crate, each on a function that does nothing.
ghost use Rattle.std.specs.Prelude.{◌≡◌, false, Bool, List, ℕ, ℤ, replicate};
ghost use Rattle.jpg_spec.specs.Elements.{zeros};
ghost use Rattle.jpg_spec.specs.FileMeaning.{no_blocks};
ghost use Rattle.jpg_spec.specs.PictureInWork.{is_at, OneChanges};
ghost use Rattle.jpg_spec.specs.Scan.{Scan, block_at};
ghost use Rattle.jpg_spec.specs.declared.frame.Place.{Place};
ghost use Rattle.jpg_coefs.specs.Machine.{Chain, KeepsUnits, StandsOn, StillAtFaults};
ghost use Rattle.jpg_coefs.specs.Picture.{Picture, HasPlace, KeepsOutside, map_of, put_at};

use crate::ScanMachine;

/// When a block is put, only that block changes, and only in its band if it was put for a band.
pub fn one_block_changes()
    ensures here { (q : Picture) (p : Place) (block : List ℤ) → HasPlace q p → block_at (map_of (put_at q p block)) p ≡ block }
    ensures others { (q : Picture) (p : Place) (block : List ℤ) → HasPlace q p → (i x y : ℕ) → is_at i x y p ≡ false → map_of (put_at q p block) i x y ≡ map_of q i x y }
    ensures band { (s : Scan) (q : Picture) (p : Place) (block : List ℤ) → HasPlace q p → KeepsOutside s q p block → OneChanges s p (map_of q) (map_of (put_at q p block)) }
{}

/// A picture whose blocks are zero is the one before any scan.
pub fn zero_blocks_are_none()
    ensures { (q : Picture) (n : ℕ) → q.blocks ≡ replicate n (zeros 64) → map_of q ≡ no_blocks }
{}

/// A machine that was given some bits and takes further ones was given all of them, in their order.
pub fn bits_are_taken_in_order<M: ScanMachine>()
    ensures { (m new : M) (now after : Picture) (bits : List Bool) → Chain M.kind m now bits new after → StandsOn M.kind m now bits new after }
{}

/// After bits with a fault a machine has left the picture as it was before the last of them: it has the blocks of
/// complete units, and all else is as before the interval.
pub fn faults_change_no_block<M: ScanMachine>()
    ensures { KeepsUnits M M.kind → StillAtFaults M.kind }
{}
