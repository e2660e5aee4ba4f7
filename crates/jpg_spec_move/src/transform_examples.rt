//! Worked examples of the transforms, by computation: small files, columns and rows that remain, sides that are
//! trimmed.
#![tactic(auto, unfolding(jpg_spec::specs::Bits::bits_of, jpg_spec::specs::Bits::whole_bytes, jpg_spec::specs::Codes::codes, jpg_spec_write::specs::FileText::file_text, jpg_spec_write::specs::FileText::scans_text, jpg_spec::specs::Geometry::units, jpg_spec::specs::Lists::chunks_of, crate::specs::Moves::mirrored, crate::specs::Moves::mirrored_down, jpg_spec::specs::Numbers::digits, jpg_spec_write::specs::ScanText::element_bits, jpg_spec_write::specs::ScanText::scan_data, jpg_spec::specs::Transposed::transposed))]

ghost use Rattle.std.specs.Prelude.{◌≡◌, ℕ, [], ◌∷◌, pos, negsuc, true, None, length};
ghost use Rattle.jpg_spec.specs.Elements.{zeros};
ghost use Rattle.jpg_spec.specs.Scan.{Blocks};
ghost use Rattle.jpg_spec_move.specs.Moves.{mirrored, mirrored_down, flip_h};
ghost use Rattle.jpg_spec.specs.Transposed.{transposed};
ghost use Rattle.jpg_spec_move.specs.Transforms.{transformed};
ghost use Rattle.jpg_spec_move.specs.Moved.{trimmed, gray_fault};
ghost use Rattle.jpg_spec_move.specs.Examples.{two_values, plain_file, narrow, two_transformed, low_values, extremes, smallest_file};
ghost use Rattle.jpg_spec.specs.Examples.{three_components, smallest};
ghost use Rattle.jpg_spec_move.specs.declared.transform.Transform.TheVariants.{FlipH, FlipV, Transpose, Transverse, Rotate90, Rotate180, Rotate270};
ghost use Rattle.jpg_spec_move.specs.ExampleFiles.{turned_text};

/// The data 25 6A of the values 5 and 2 under each transform.
pub fn two_values_are_transformed()
    ensures flip_v { two_transformed FlipV ≡ plain_file two_values (0x25 ∷ 0x5a ∷ []) }
    ensures transpose { two_transformed Transpose ≡ plain_file two_values (0x1a ∷ 0x5a ∷ []) }
    ensures transverse { two_transformed Transverse ≡ plain_file two_values (0x16 ∷ 0x2a ∷ []) }
    ensures rotate_90 { two_transformed Rotate90 ≡ plain_file two_values (0x16 ∷ 0x5a ∷ []) }
    ensures rotate_180 { two_transformed Rotate180 ≡ plain_file two_values (0x22 ∷ 0x5a ∷ []) }
    ensures rotate_270 { two_transformed Rotate270 ≡ plain_file two_values (0x1a ∷ 0x2a ∷ []) }
{}

/// Of 17 by 16 samples and factors 2 and 1, mirrored top to bottom, all rows are exchanged. Rotated by 90 degrees, the
/// third column of blocks becomes the third row, and only its columns are exchanged.
pub fn rows_and_columns_that_stay()
    ensures down { (blocks : Blocks) (x : ℕ) → (transformed FlipV (three_components blocks)).blocks 0 x 0 ≡ mirrored_down (blocks 0 x 1) }
    ensures partial { (blocks : Blocks) → (transformed Rotate90 (three_components blocks)).blocks 0 0 2 ≡ mirrored (transposed (pos 0) (blocks 0 2 1)) }
    ensures back { (blocks : Blocks) → (transformed Rotate270 (three_components blocks)).blocks 0 0 2 ≡ transposed (pos 0) (blocks 0 2 0) }
{}

/// Trimmed, 17 samples become 16 if columns are exchanged, and remain if none are. A side shorter than one iMCU
/// remains.
pub fn sides_are_trimmed_to_whole_mcus()
    ensures across { (blocks : Blocks) → (trimmed true FlipH (transformed FlipH (three_components blocks))).width ≡ 16 }
    ensures kept { (blocks : Blocks) → (trimmed true FlipV (transformed FlipV (three_components blocks))).width ≡ 17 }
    ensures width { (trimmed true Rotate90 (transformed Rotate90 (narrow (zeros 64)))).width ≡ 8 }
    ensures height { (trimmed true Rotate90 (transformed Rotate90 (narrow (zeros 64)))).height ≡ 7 }
    ensures block { (trimmed true Rotate90 (transformed Rotate90 (narrow low_values))).blocks 0 0 0 ≡ pos 0 ∷ negsuc 1 ∷ pos 5 ∷ zeros 61 }
    ensures small { (trimmed true FlipH (narrow (zeros 64))).width ≡ 7 }
{}

/// The first component of the three has the greatest factors.
pub fn three_components_may_be_gray()
    ensures { (blocks : Blocks) → gray_fault true (three_components blocks) ≡ None }
{}

/// The smallest gray file, 331 bytes, mirrored left to right is the same file.
pub fn smallest_file_is_turned_into_itself()
    ensures { (turned_text smallest ≡ smallest_file) × (length smallest_file ≡ 331) }
{}

/// The value 5 in place 1 is of an odd horizontal frequency and changes its sign, the 2 in place 2 is not.
pub fn odd_frequencies_change_their_sign()
    ensures { mirrored (pos 0 ∷ pos 5 ∷ pos 2 ∷ zeros 61) ≡ pos 0 ∷ negsuc 4 ∷ pos 2 ∷ zeros 61 }
{}

/// The data 25 6A of these two values become 22 6A.
pub fn two_values_are_turned()
    ensures { turned_text two_values ≡ plain_file two_values (0x22 ∷ 0x6a ∷ []) }
{}

/// The DC values -1024 and 1023 are exchanged, and the difference from 1023 down to -1024 has category 11.
pub fn extremes_are_turned()
    ensures { turned_text extremes ≡ plain_file extremes (0xfe ∷ 0xff ∷ 0x00 ∷ 0xeb ∷ 0xfc ∷ 0x00 ∷ 0x2b ∷ []) }
{}

/// Of a component with factor 2 the columns of the one complete iMCU are exchanged, and the third column remains.
pub fn columns_of_whole_mcus_change_places()
    ensures first { (blocks : Blocks) (y : ℕ) → (flip_h (three_components blocks)).blocks 0 0 y ≡ mirrored (blocks 0 1 y) }
    ensures second { (blocks : Blocks) (y : ℕ) → (flip_h (three_components blocks)).blocks 0 1 y ≡ mirrored (blocks 0 0 y) }
    ensures third { (blocks : Blocks) (y : ℕ) → (flip_h (three_components blocks)).blocks 0 2 y ≡ blocks 0 2 y }
{}

/// Of the other components the first column is mirrored in its place, and the second remains.
pub fn single_columns_are_mirrored_in_place()
    ensures first { (blocks : Blocks) (y : ℕ) → (flip_h (three_components blocks)).blocks 1 0 y ≡ mirrored (blocks 1 0 y) }
    ensures second { (blocks : Blocks) (y : ℕ) → (flip_h (three_components blocks)).blocks 1 1 y ≡ blocks 1 1 y }
    ensures third { (blocks : Blocks) (y : ℕ) → (flip_h (three_components blocks)).blocks 2 0 y ≡ mirrored (blocks 2 0 y) }
    ensures fourth { (blocks : Blocks) (y : ℕ) → (flip_h (three_components blocks)).blocks 2 1 y ≡ blocks 2 1 y }
{}
