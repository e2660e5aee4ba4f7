//! Laws over Huffman tables made for counts (T.81, Annex K.2).
ghost use Rattle.std.specs.Prelude.{◌≡◌, ◌↔◌, ◌≤◌, ◌<◌, ◌++◌, ◌∷◌, [], ℕ, Bool, true, List, All, length, reverse, slice_index, Contains};
ghost use Rattle.jpg_spec.specs.Lists.{is_among};
ghost use Rattle.jpg_spec.specs.Segments.{table_codes};
ghost use Rattle.jpg_spec_fit.specs.FewestBits.{TakeFewestBits};
ghost use Rattle.jpg_spec_fit.specs.Fitted.{code_sizes, sizes_counted, one_less, fitted, IsValidTable};

/// A table made for at most 256 counts is valid: in particular its codes have at most 16 bits, and none is all ones.
pub fn fitted_tables_are_valid()
    ensures { (counts : List ℕ) → length counts ≤ 256 → IsValidTable (fitted counts) }
{}

/// Its symbols are those whose count isn't 0.
pub fn fitted_tables_have_what_is_sent()
    ensures { (counts : List ℕ) (symbol : ℕ) → (is_among symbol (fitted counts).symbols ≡ true) ↔ (0 < slice_index counts symbol) }
{}

/// Each of them has a code.
pub fn fitted_tables_have_codes()
    ensures { (counts : List ℕ) (symbol : ℕ) → length counts ≤ 256 → 0 < slice_index counts symbol
        → (code : List Bool) × Contains (table_codes (fitted counts)) (code, symbol) }
{}

/// The sizes of Figure K.1, where the reserved symbol is sent once: no prefix code takes fewer bits.
pub fn code_sizes_take_the_fewest_bits()
    ensures { (counts : List ℕ) → TakeFewestBits (counts ++ 1 ∷ []) (code_sizes counts) }
{}

/// Where no size is above 16, the table has as many codes of each size, but for the reserved symbol's.
pub fn short_sizes_are_not_adjusted()
    ensures { (counts : List ℕ) → All (λ size. size ≤ 16) (code_sizes counts)
        → (fitted counts).counts ≡ reverse (one_less (sizes_counted 16 (code_sizes counts))) }
{}
