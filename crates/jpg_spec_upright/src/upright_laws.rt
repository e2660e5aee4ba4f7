//! Laws over pictures turned upright (Exif 2.3, 4.6.4).
ghost use Rattle.std.specs.Prelude.{◌≡◌, ℕ, Bool, List, true};
ghost use Rattle.jpg_spec.specs.FileMeaning.{Means};
ghost use Rattle.jpg_spec.specs.Meaning.{Meaning};
ghost use Rattle.jpg_spec.specs.Segments.{standard_limits};
ghost use Rattle.jpg_spec_move.specs.Moved.{Choice, IsSamePicture};
ghost use Rattle.jpg_spec_upright.specs.Exif.{marked_upright, orientation_of};
ghost use Rattle.jpg_spec_upright.specs.Laws.{IsDisplayed, IsTextFor, LeavesNothing, displayed_block, turned_block};
ghost use Rattle.jpg_spec_upright.specs.Upright.{moved_for, shown};

/// Markers that were marked upright have orientation 1, and marked again they are as they were.
pub fn marked_segments_are_upright()
    ensures one { (kept : List (ℕ × List ℕ)) → orientation_of (marked_upright kept) ≡ 1 }
    ensures again { (kept : List (ℕ × List ℕ)) → marked_upright (marked_upright kept) ≡ marked_upright kept }
{}

/// Each transform is the one that the orientation asks for: a block of complete iMCUs is displayed at its row's distance
/// from the side where row 0 is, and at its column's distance from the side where column 0 is.
pub fn blocks_are_displayed_at_their_sides()
    ensures { (orientation : ℕ) (M : Meaning) (i x y : ℕ) → IsDisplayed orientation M i x y → displayed_block orientation M i x y ≡ turned_block orientation (M.blocks i x y) }
{}

/// A picture turned upright has orientation 1, whatever else is asked for and whichever markers are copied.
pub fn pictures_turned_upright_are_upright()
    ensures { (choice : Choice) (M : Meaning) → orientation_of (moved_for true choice M).kept ≡ 1 }
{}

/// What is displayed of it is what is displayed of the input, if nothing is left out. Turned upright again, with whatever
/// is copied then and in whatever scans, it is the same picture.
pub fn pictures_turned_upright_are_displayed_alike()
    ensures shown { (choice : Choice) (M : Meaning) → LeavesNothing choice → IsSamePicture (shown (moved_for true choice M)) (shown M) }
    ensures again { (first second : Choice) (M : Meaning) → LeavesNothing second → IsSamePicture (moved_for true second (moved_for true first M)) (moved_for true first M) }
{}

/// The file of a picture that is turned upright means it, as that of a picture that isn't does, if it has no fault.
pub fn pictures_turned_upright_may_be_written()
    ensures { (upright : Bool) (choice : Choice) (M : Meaning) (bytes : List ℕ) → IsTextFor upright choice M bytes → Means standard_limits bytes (moved_for upright choice M) }
{}
