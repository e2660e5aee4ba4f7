//! Laws over the definitions, each on a function that does nothing.
ghost use Rattle.std.specs.Prelude.{ℕ, List, [], ◌∷◌, ◌++◌, codes, Ok};
ghost use Rattle.jpg_spec.specs.TextForms.{HasOneAnswer};
ghost use Rattle.jpg_spec.specs.Zigzag.{zigzag};
ghost use Rattle.jpg_spec_image.specs.TableText.{TellsTables, tables_form};
ghost use Rattle.jpg_dct.specs.TriedTexts.{IsWrongAt, ones_text, counting_text};

/// A text encodes one list of tables, or is wrong at one place.
pub fn texts_tell_tables_once()
    ensures { (text : List ℕ) → HasOneAnswer tables_form text }
{}

/// The numbers of a text are row by row: those from 0 to 63 are the places of zigzag order.
pub fn numbers_are_told_by_rows()
    ensures { TellsTables counting_text (Ok (zigzag ∷ [])) }
{}

/// Texts are wrong at the first byte that no text of the form has there: a sixth digit, the digit that takes a number
/// above 65535, a comma. A text of other than 64, 128, 192 or 256 numbers ends too early, and number 257 is wrong at
/// its first digit.
pub fn wrong_tables_have_a_place()
    ensures digit { IsWrongAt (codes "7 000001") 8 }
    ensures large { IsWrongAt (codes "65535 65536") 11 }
    ensures comma { IsWrongAt (codes "1, 2") 2 }
    ensures none { IsWrongAt [] 0 }
    ensures few { IsWrongAt (ones_text 63) 126 }
    ensures between { IsWrongAt (ones_text 65) 130 }
    ensures many { IsWrongAt (ones_text 256 ++ codes "1") 513 }
{}
