//! Worked examples of Huffman tables made for counts (T.81, Annex K.2, Figures K.1 to K.4, by hand or from another
//! program).
#![tactic(auto, unfolding(crate::specs::Fitted::fitted, crate::specs::Fitted::code_sizes, crate::specs::Fitted::fitted_counts, crate::specs::Fitted::joined, crate::specs::Fitted::least_two, crate::specs::Fitted::least))]

ghost use Rattle.std.specs.Prelude.{◌≡◌, ◌∷◌, ◌++◌, [], replicate};
ghost use Rattle.jpg_spec_fit.specs.Fitted.{code_sizes, fitted};
ghost use Rattle.jpg_spec_fit.specs.FittedExamples.{table_with, doubling};

/// No symbol, symbols that aren't sent, one symbol, and two: the last size is that of the reserved symbol.
pub fn few_symbols_have_short_codes()
    ensures none { fitted [] ≡ table_with [] [] }
    ensures unsent { fitted (0 ∷ 0 ∷ []) ≡ table_with [] [] }
    ensures one { fitted (5 ∷ []) ≡ table_with (1 ∷ []) (0 ∷ []) }
    ensures sizes { code_sizes (5 ∷ 0 ∷ 3 ∷ []) ≡ 1 ∷ 0 ∷ 2 ∷ 2 ∷ [] }
    ensures two { fitted (5 ∷ 0 ∷ 3 ∷ []) ≡ table_with (1 ∷ 1 ∷ []) (0 ∷ 2 ∷ []) }
{}

/// Of equal counts the greater number is joined first: of four symbols that are sent three times each the last has the
/// longest code.
pub fn equal_counts_join_the_last()
    ensures sizes { code_sizes (3 ∷ 3 ∷ 3 ∷ 3 ∷ []) ≡ 2 ∷ 2 ∷ 2 ∷ 3 ∷ 3 ∷ [] }
    ensures table { fitted (3 ∷ 3 ∷ 3 ∷ 3 ∷ []) ≡ table_with (0 ∷ 3 ∷ 1 ∷ []) (0 ∷ 1 ∷ 2 ∷ 3 ∷ []) }
{}

/// Seven counts of different sizes.
pub fn rare_symbols_have_long_codes()
    ensures sizes { code_sizes (7 ∷ 1 ∷ 1 ∷ 1 ∷ 6 ∷ 0 ∷ 2 ∷ []) ≡ 1 ∷ 4 ∷ 4 ∷ 5 ∷ 2 ∷ 0 ∷ 4 ∷ 5 ∷ [] }
    ensures table { fitted (7 ∷ 1 ∷ 1 ∷ 1 ∷ 6 ∷ 0 ∷ 2 ∷ []) ≡ table_with (1 ∷ 1 ∷ 0 ∷ 3 ∷ 1 ∷ []) (0 ∷ 4 ∷ 1 ∷ 2 ∷ 6 ∷ 3 ∷ []) }
{}

/// With 18 counts, each twice the one before, sizes go up to 18; they are adjusted to 16.
pub fn long_codes_become_shorter()
    ensures sizes { code_sizes doubling ≡ 18 ∷ 17 ∷ 16 ∷ 15 ∷ 14 ∷ 13 ∷ 12 ∷ 11 ∷ 10 ∷ 9 ∷ 8 ∷ 7 ∷ 6 ∷ 5 ∷ 4 ∷ 3 ∷ 2 ∷ 1 ∷ 18 ∷ [] }
    ensures counts { (fitted doubling).counts ≡ replicate 13 1 ++ 0 ∷ 2 ∷ 3 ∷ [] }
    ensures symbols { (fitted doubling).symbols ≡ 17 ∷ 16 ∷ 15 ∷ 14 ∷ 13 ∷ 12 ∷ 11 ∷ 10 ∷ 9 ∷ 8 ∷ 7 ∷ 6 ∷ 5 ∷ 4 ∷ 3 ∷ 2 ∷ 1 ∷ 0 ∷ [] }
{}
