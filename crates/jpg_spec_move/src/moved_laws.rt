//! Laws over pictures moved: they may be written, in their own scans too.
ghost use Rattle.std.specs.Prelude.{◌≡◌, ℕ, ◌*◌, ◌≤◌, List, None};
ghost use Rattle.jpg_spec.specs.Segments.{standard_limits};
ghost use Rattle.jpg_spec.specs.Meaning.{Meaning, most_across};
ghost use Rattle.jpg_spec.specs.FileMeaning.{Means};
ghost use Rattle.jpg_spec.specs.InForce.{first_some};
ghost use Rattle.jpg_spec_move.specs.Cropped.{crop_fault};
ghost use Rattle.jpg_spec_move.specs.Moved.{Choice, moved, moved_script_fault, picture_fault, uncropped};
ghost use Rattle.jpg_spec_write.specs.WrittenFile.{IsHeaded};
ghost use Rattle.jpg_spec_move.specs.Laws.{AreParts, HasSampling, IsMovable, IsMovedText, left_columns, left_part, right_part, whole};
ghost use Rattle.jpg_spec_write.specs.Laws.{AreOwn};

/// What a file means may be written, transformed by any choice that the picture admits: its frame passes the checks,
/// and its tables, kept markers and blocks are those that a file can have. So the file of the transformed picture means
/// it, sequential or progressive, in default scans or those that were given, with any restarts, if its script has no
/// fault (T.81, B.2; the manual of jpegtran).
pub fn moved_pictures_may_be_written()
    ensures headed { (choice : Choice) (M : Meaning) → IsMovable choice M → IsHeaded standard_limits (moved choice M) }
    ensures means { (choice : Choice) (M : Meaning) (bytes : List ℕ) → IsMovedText choice M bytes → Means standard_limits bytes (moved choice M) }
{}

/// The area that a picture is cropped to is judged last: a script has the same fault on the cropped picture as on the
/// one before.
pub fn areas_are_judged_last()
    ensures script { (choice : Choice) (M : Meaning) → moved_script_fault choice M ≡ moved_script_fault (whole choice) M }
    ensures fault { (choice : Choice) (M : Meaning) → picture_fault choice M ≡ first_some (picture_fault (whole choice) M) (crop_fault choice.crop (uncropped choice M)) }
{}

/// A picture that is cut before a column of iMCUs has each of its blocks in exactly one of the two parts.
pub fn parts_have_each_block_once()
    ensures { (M : Meaning) (n : ℕ) → HasSampling M → n * (8 * most_across M) ≤ M.width → AreParts (left_columns n M) M (left_part n M) (right_part n M) }
{}

/// The default scans of a transformed picture have no fault, whatever picture it is.
pub fn own_scans_of_pictures_have_no_fault()
    ensures { (choice : Choice) (M : Meaning) → IsMovable choice M → AreOwn choice.scans → moved_script_fault choice M ≡ None }
{}
