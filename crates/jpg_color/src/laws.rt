//! Laws on images that are written while their pictures are read.
ghost use Rattle.std.specs.Prelude.{ℕ, Bool};
ghost use Rattle.jpg_spec.specs.Meaning.{Meaning};
ghost use Rattle.jpg_spec_image.specs.declared.image.EndKind.{EndKind};
ghost use Rattle.jpg_color.specs.StripImage.{AgreeInFirstRows, AreDrawnAlike, Drawing, DrawsImage, TextsJoin};

/// What was drawn of a picture is drawn of any picture with the same first MCU rows.
pub fn first_rows_stand_for_more()
    ensures { (M N : Meaning) (gray smooth : Bool) (m : ℕ) → AgreeInFirstRows M N m → AreDrawnAlike M N gray smooth m }
{}

/// The texts of the MCU rows are the text of the image, one after another.
pub fn texts_join()
    ensures { (d : Drawing) (M : Meaning) (gray smooth : Bool) (kind : EndKind) → DrawsImage d M gray smooth → TextsJoin kind M gray smooth }
{}
