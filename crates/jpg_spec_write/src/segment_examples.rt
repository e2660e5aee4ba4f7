//! Worked examples of segments: tables, and comments printed and inserted.
#![tactic(auto, unfolding(jpg_spec::specs::Codes::are_codes, jpg_spec::specs::HuffContents::huffman_table_of, jpg_spec::specs::HuffContents::huffman_tables_of, jpg_spec::specs::QuantContents::quant_tables_of))]

ghost use Rattle.std.specs.Prelude.{◌≡◌, List, ℕ, [], ◌∷◌, ◌++◌, true, false, codes};
ghost use Rattle.jpg_spec.specs.Segments.{standard_limits};
ghost use Rattle.jpg_spec.specs.Markers.{soi};
ghost use Rattle.jpg_spec_write.specs.CommentText.{printed, inserted_head, IsInserted};
ghost use Rattle.jpg_spec_write.specs.Examples.{two_segments, app_text, old_text, hi_text};

/// `a\b`, CR, LF, `c` and the byte 01 are printed as `a\\b`, LF, `c\001`, LF.
pub fn comments_are_printed()
    ensures { printed (97 ∷ 92 ∷ 98 ∷ 13 ∷ 10 ∷ 99 ∷ 1 ∷ []) ≡ 97 ∷ 92 ∷ 92 ∷ 98 ∷ 10 ∷ 99 ∷ 92 ∷ 48 ∷ 48 ∷ 49 ∷ 10 ∷ [] }
{}

/// Before the frame header of a file with an APP0 segment and a comment `old` these two and the comment `hi` are
/// written, or, if it replaces others, the first and `hi`. An empty comment isn't inserted.
pub fn comments_are_inserted()
    ensures behind { inserted_head (codes "hi") false two_segments 0xc0 ≡ soi ++ app_text ++ old_text ++ hi_text ++ 0xff ∷ 0xc0 ∷ [] }
    ensures replaced { inserted_head (codes "hi") true two_segments 0xc0 ≡ soi ++ app_text ++ hi_text ++ 0xff ∷ 0xc0 ∷ [] }
    ensures empty { inserted_head [] false ((0xe0, codes "q") ∷ []) 0xc2 ≡ soi ++ app_text ++ 0xff ∷ 0xc2 ∷ [] }
{}

/// FF D8 FF FF C0 and any bytes: with an empty comment the fill byte is dropped, and what follows the marker of the
/// frame header doesn't change.
pub fn fill_is_left_out()
    ensures { (rest : List ℕ) → IsInserted standard_limits (0xff ∷ 0xd8 ∷ 0xff ∷ 0xff ∷ 0xc0 ∷ rest) [] false (0xff ∷ 0xd8 ∷ 0xff ∷ 0xc0 ∷ rest) }
{}
