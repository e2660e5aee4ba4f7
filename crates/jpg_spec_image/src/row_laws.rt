//! Laws on the MCU rows of a first scan of all components that the bytes of a file encode (T.81, A.2.3, E.1.4, F.2.2).
ghost use Rattle.std.specs.Prelude.{◌≡◌, ◌≤◌, ◌*◌, ℕ, Bool, true, false, List, [], length, None};
ghost use Rattle.jpg_spec.specs.Scan.{Blocks};
ghost use Rattle.jpg_spec.specs.Meaning.{Meaning};
ghost use Rattle.jpg_spec.specs.Markers.{Segment};
ghost use Rattle.jpg_spec.specs.FileMeaning.{scan_after};
ghost use Rattle.jpg_spec.specs.Geometry.{Frame as Numbers};
ghost use Rattle.jpg_spec.specs.ScanRows.{first_rows, scan_row};
ghost use Rattle.jpg_spec_image.specs.Pixels.{out_fault};
ghost use Rattle.jpg_spec_image.specs.Strips.{mcu_rows};
ghost use Rattle.jpg_spec.specs.RowsParsed.{TellsRows, CompletesRows, BeginsScanOfAll, row_places, picture_so_far};
ghost use Rattle.jpg_spec_image.specs.RowsShown.{rows_text, ShowsRows};
ghost use Rattle.jpg_spec_image.specs.Laws.{AreNotShownAlike};
ghost use Rattle.jpg_spec_image.specs.RowLaws.{TellsEnough, HasBegunPicture, begun_picture, begun_rows, IsShownInRows, CompletesAll, early_text, TellsTwice, fewer_text, more_text, GoesOnFrom, all_rows_text, is_by_rows, so_far_in, text_in};
ghost use Rattle.jpg_spec.specs.RowLaws.{HasRows, IsReadByRows, EndsEarlyByRows, early_so_far};
ghost use Rattle.jpg_spec_image.specs.declared.image.EndKind.{EndKind};
ghost use Rattle.jpg_spec.specs.declared.frame.Limits.{Limits};
ghost use Rattle.jpg_spec.specs.declared.frame.Place.{Place};

/// A complete file completes all MCU rows of such a scan, and the picture of their blocks is the one that the file
/// means.
pub fn files_complete_all_rows()
    ensures { (limits : Limits) (bytes : List ℕ) (M : Meaning) (w : IsReadByRows limits bytes M) → CompletesAll limits bytes M w }
{}

/// The text of fewer MCU rows is a prefix of that of more: rows of the image that are ready don't depend on later
/// blocks.
pub fn texts_of_rows_go_on()
    ensures { (limits : Limits) (gray smooth : Bool) (bytes : List ℕ) (kind : EndKind) (w : TellsTwice limits gray bytes)
        → GoesOnFrom (fewer_text limits gray smooth bytes kind w) (more_text limits gray smooth bytes kind w) }
{}

/// Such a scan has the MCU rows of its picture. No more are decoded, and all of them are complete, whatever follows. If
/// the picture can be displayed, its components cover the rows of the image (T.81, A.2).
pub fn scans_of_all_have_the_rows_of_their_picture()
    ensures places { (limits : Limits) (bytes : List ℕ) (w : HasBegunPicture limits bytes)
        → (scan_after limits w.before w.contents).places ≡ row_places limits w.before w.contents (begun_rows limits bytes w) }
    ensures few { (limits : Limits) (bytes : List ℕ) (rows : ℕ) (x : Blocks) (w : HasBegunPicture limits bytes)
        → TellsRows limits bytes rows x → rows ≤ begun_rows limits bytes w }
    ensures all { (limits : Limits) (bytes : List ℕ) (x : Blocks) (w : HasBegunPicture limits bytes)
        → TellsRows limits bytes (begun_rows limits bytes w) x → CompletesRows limits bytes (begun_rows limits bytes w) x }
    ensures covered { (limits : Limits) (bytes : List ℕ) (gray smooth : Bool) (w : HasBegunPicture limits bytes)
        → out_fault gray (begun_picture limits bytes w) ≡ None → IsShownInRows (begun_picture limits bytes w) gray smooth }
{}

/// Units belong to MCU rows in their order, and each row has as many as the first (T.81, A.2).
pub fn units_are_told_row_by_row()
    ensures rows { (limits : Limits) (bytes : List ℕ) (w : HasBegunPicture limits bytes) (places : List Place) (rows : ℕ)
        → TellsEnough limits bytes w places rows → HasRows limits w.before w.contents places rows }
    ensures long { (f : Numbers) (components : List ℕ) (rows : ℕ) → length (first_rows f components rows) ≡ rows * length (scan_row f components 0) }
{}

/// If the picture so far can't be displayed, the reason is that of its file.
pub fn pictures_so_far_are_shown_as_their_files()
    ensures { (limits : Limits) (gray : Bool) (bytes : List ℕ) (before : List Segment) (contents : List ℕ) (blocks : Blocks)
        → BeginsScanOfAll limits bytes before contents → AreNotShownAlike limits gray bytes (picture_so_far limits before contents blocks) }
{}

/// The text of all MCU rows of a complete file is that of its image, if the format is written row by row. In any
/// format, the image of their blocks, with what is in force at the end of the scan header, is that of the file.
pub fn files_show_all_rows()
    ensures rows { (limits : Limits) (bytes : List ℕ) (M : Meaning) (w : IsReadByRows limits bytes M) (kind : EndKind) (gray smooth : Bool) (blocks : Blocks)
        → is_by_rows kind ≡ true → CompletesRows limits bytes (mcu_rows M) blocks
        → all_rows_text kind limits bytes M w gray smooth blocks ≡ text_in kind M gray smooth }
    ensures image { (limits : Limits) (bytes : List ℕ) (M : Meaning) (w : IsReadByRows limits bytes M) (kind : EndKind) (gray smooth : Bool) (blocks : Blocks)
        → CompletesRows limits bytes (mcu_rows M) blocks → so_far_in kind limits bytes M w gray smooth blocks ≡ text_in kind M gray smooth }
{}

/// Bytes have one text of rows, and none in a format that isn't written row by row: a BMP file has its header and its
/// rows at its end.
pub fn rows_show_one_text()
    ensures late { (M : Meaning) (kind : EndKind) (gray smooth : Bool) (rows : ℕ) → is_by_rows kind ≡ false → rows_text kind M gray smooth rows ≡ [] }
    ensures one { (limits : Limits) (kind : EndKind) (gray smooth : Bool) (bytes a b : List ℕ)
        → ShowsRows limits kind gray smooth bytes a → ShowsRows limits kind gray smooth bytes b → a ≡ b }
{}

/// The text of all MCU rows of such a file is that of its image, if the format is written row by row. In any format,
/// the image of its blocks, with what is in force at the end of the scan header, is that of the file.
pub fn early_files_show_all_rows()
    ensures rows { (limits : Limits) (bytes : List ℕ) (M : Meaning) (w : EndsEarlyByRows limits bytes M) (kind : EndKind) (gray smooth : Bool)
        → is_by_rows kind ≡ true → early_text kind limits bytes M w gray smooth ≡ text_in kind M gray smooth }
    ensures image { (limits : Limits) (bytes : List ℕ) (M : Meaning) (w : EndsEarlyByRows limits bytes M) (kind : EndKind) (gray smooth : Bool)
        → text_in kind (early_so_far limits bytes M w) gray smooth ≡ text_in kind M gray smooth }
{}
