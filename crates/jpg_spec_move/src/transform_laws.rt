//! Laws over the transforms of pictures: the inverse of each, and the one formula for all eight (the manual of
//! jpegtran).
ghost use Rattle.std.specs.Prelude.{◌≡◌, ℕ, ℤ, Bool, List};
ghost use Rattle.jpg_spec.specs.Geometry.{Frame};
ghost use Rattle.jpg_spec.specs.FrameHeader.{IsFrame};
ghost use Rattle.jpg_spec_move.specs.Moved.{Choice, moved, moved_frame, IsSamePicture};
ghost use Rattle.jpg_spec.specs.Meaning.{Meaning};
ghost use Rattle.jpg_spec_move.specs.Transforms.{transformed, inverse, signed, turned_over};
ghost use Rattle.jpg_spec_move.specs.Laws.{IsTransformOf, UndoesTransform, formula_block, HasSampling, IsZeroOutside, IsMovableFrame};
ghost use Rattle.jpg_spec.specs.declared.frame.Bounds.{Bounds};
ghost use Rattle.jpg_spec.specs.Elements.{IsBlockIn};
ghost use Rattle.jpg_spec.specs.WholeBlocks.{HasWholeBlocks};
ghost use Rattle.jpg_spec_move.specs.declared.transform.Transform.{Transform};

/// Each transform is undone by its inverse, if a picture has 64 numbers in each block and table: its sides,
/// identifiers, factors, quantisers and all its blocks are what they were, also those of partial iMCUs.
pub fn transforms_are_undone()
    ensures { (M : Meaning) (t : Transform) → HasWholeBlocks M → transformed (inverse t) (transformed t M) ≡ M }
{}

/// So if a picture is a transform of another, the inverse without trimming, conversion to grayscale and cropping restores
/// it, whatever is copied and in whatever scans both are written.
pub fn pictures_are_moved_back()
    ensures { (M N : Meaning) (t : Transform) (choice : Choice) → IsTransformOf t M N → UndoesTransform t choice → IsSamePicture (moved choice N) M }
{}

/// The block at each place of the output is given by one formula: the place that it comes from, whether its frequencies
/// are exchanged, and which signs are changed.
pub fn one_formula_tells_all_blocks()
    ensures { (M : Meaning) (t : Transform) (i x y : ℕ) → HasWholeBlocks M → (transformed t M).blocks i x y ≡ formula_block t M i x y }
{}

/// A picture whose blocks are zero outside its real grids has such blocks when it is transformed.
pub fn transformed_pictures_are_zero_outside()
    ensures { (M : Meaning) (t : Transform) → HasWholeBlocks M → HasSampling (transformed t M) → IsZeroOutside M → IsZeroOutside (transformed t M) }
{}

/// The frame of a transformed picture passes the checks of a frame header, if the picture's frame does, and can be
/// converted to grayscale and cropped if that is asked for.
pub fn frames_moved_are_frames()
    ensures { (choice : Choice) (f : Frame) → IsMovableFrame choice f → IsFrame (moved_frame choice f) }
{}

/// Each block that the formula makes of one within the bounds of a frame is within them: its DC is the same, and no AC
/// has another magnitude.
pub fn moved_blocks_can_be_written()
    ensures { (b : Bounds) (across down over : Bool) (old : List ℤ) → IsBlockIn b old → IsBlockIn b (signed across down (turned_over over old)) }
{}
