//! Laws on images made row by row: a row depends only on the rows of samples next to it.
ghost use Rattle.std.specs.Prelude.{◌≡◌, ◌-◌, ◌/◌, ℕ, List, Bool};
ghost use Rattle.jpg_spec.specs.Scan.{Blocks};
ghost use Rattle.jpg_spec.specs.Meaning.{Meaning};
ghost use Rattle.jpg_spec_image.specs.Upsampling.{Stretch};
ghost use Rattle.jpg_spec_image.specs.Pixels.{plane_row, stretch_of};
ghost use Rattle.jpg_spec_image.specs.Strips.{IsRowReady, IsMade, Agree, rows_from, kept_row, known_rows};
ghost use Rattle.jpg_spec_image.specs.Laws.{MakeSameRow, AgreeInRow, AgreeWhereMade, KeepsRow, MakesReady};
ghost use Rattle.jpg_spec.specs.Laws.{with_blocks};

/// Of the rows made of k rows of a plane, those that weren't made of j rows yet are made from row j - 1 on.
pub fn rows_need_their_neighbours()
    ensures { (s : Stretch) (rows others : ℕ → List ℕ) (j k y : ℕ) → IsMade s j k y → Agree (j - 1) k rows others → MakeSameRow s rows others y }
{}

/// So they are made from the rows that are kept.
pub fn kept_rows_make_the_next()
    ensures { (s : Stretch) (rows : ℕ → List ℕ) (j k y : ℕ) → IsMade s j k y → MakeSameRow s (kept_row (j - 1) (rows_from rows (j - 1) (k - (j - 1)))) rows y }
{}

/// A row of samples depends only on its row of blocks.
pub fn samples_need_their_blocks()
    ensures { (M : Meaning) (others : Blocks) (i y : ℕ) → AgreeInRow M.blocks others i (y / 8) → plane_row M i y ≡ plane_row (with_blocks M others) i y }
{}

/// The first rows of the image depend only on the first rows of blocks.
pub fn first_rows_need_the_first_blocks()
    ensures { (M : Meaning) (others : Blocks) (smooth : Bool) (i y : ℕ) → AgreeWhereMade M others smooth i y → KeepsRow M others smooth i y }
{}

/// Rows of the image that are ready after m MCU rows are made from the rows of samples of these.
pub fn ready_rows_are_told()
    ensures { (M : Meaning) (count : ℕ) (smooth : Bool) (all m i y : ℕ) → MakesReady M count smooth all m i y → IsRowReady (stretch_of M smooth i) (known_rows M i m) y }
{}
