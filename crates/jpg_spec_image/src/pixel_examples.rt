//! Worked examples of samples and colours, by computation.
#![tactic(auto, unfolding(crate::specs::Dct::column, crate::specs::Dct::dequantised, crate::specs::Dct::even_sums, crate::specs::Dct::inverse_dct, crate::specs::Dct::joined_sums, crate::specs::Dct::odd_sums, crate::specs::Dct::sample_row, crate::specs::ImageText::bmp_header, crate::specs::ImageText::palette, crate::specs::ImageText::pnm_header, crate::specs::ImageText::targa_header, jpg_spec::specs::Numbers::digits, crate::specs::RedGreenBlue::to_rgb, crate::specs::Upsampling::repeat_row, crate::specs::Upsampling::up_row, crate::specs::Upsampling::up_rows2))]

ghost use Rattle.std.specs.Prelude.{◌≡◌, ℕ, List, [], ◌∷◌, ◌++◌, pos, replicate, length, codes, true, false, None, Some};
ghost use Rattle.jpg_spec.specs.Lists.{joined};
ghost use Rattle.jpg_spec_image.specs.Examples.{gray_square, gray_rows, two_colours, flat_picture, ninth_row};
ghost use Rattle.jpg_spec_image.specs.Pixels.{pixel_row, info, out_fault, out_fault_of};
ghost use Rattle.jpg_spec_image.specs.declared.image.ImageKind.TheVariants.{Rgb};
ghost use Rattle.jpg_spec.specs.declared.frame.Colour.{Colour};
ghost use Rattle.jpg_spec.specs.declared.frame.Colour.TheVariants.{YCbCr, Cmyk};
ghost use Rattle.jpg_spec.specs.declared.fault.Fault.TheVariants.{Precision, ColourOut, FractionalSampling};
ghost use Rattle.jpg_spec_image.specs.ImageText.{end_text};
ghost use Rattle.jpg_spec_image.specs.declared.image.EndKind.TheVariants.{Pnm, Bmp, Targa};
ghost use Rattle.jpg_spec.specs.Elements.{zeros};
ghost use Rattle.jpg_spec_image.specs.Dct.{inverse_dct, dequantised};
ghost use Rattle.jpg_spec_image.specs.Upsampling.{up_row, up_rows2, repeat_row};
ghost use Rattle.jpg_spec_image.specs.RedGreenBlue.{to_rgb};

/// Of two neighbours the nearer one counts three times.
pub fn rows_are_made_twice_as_wide()
    ensures { up_row (10 ∷ 20 ∷ 30 ∷ []) ≡ 10 ∷ 13 ∷ 17 ∷ 23 ∷ 27 ∷ 30 ∷ [] }
{}

/// The near row counts three times too.
pub fn two_rows_are_made_one_twice_as_wide()
    ensures { up_rows2 (10 ∷ 20 ∷ 30 ∷ []) (30 ∷ 40 ∷ 50 ∷ []) ≡ 15 ∷ 17 ∷ 23 ∷ 27 ∷ 33 ∷ 35 ∷ [] }
{}

/// Other rows are repeated.
pub fn samples_are_repeated()
    ensures { repeat_row 3 (10 ∷ 20 ∷ []) ≡ 10 ∷ 10 ∷ 10 ∷ 20 ∷ 20 ∷ 20 ∷ [] }
{}

/// A reddish pixel.
pub fn colours_are_converted()
    ensures { to_rgb 100 90 200 ≡ 201 ∷ 62 ∷ 33 ∷ [] }
{}

/// DC 0 is the middle gray.
pub fn zeros_are_gray()
    ensures { inverse_dct (dequantised (replicate 64 1) (zeros 64)) ≡ replicate 64 128 }
{}

/// DC 1023 with a quantiser of 255 gives 32608, whose low ten bits are 864: black.
pub fn large_values_wrap()
    ensures { inverse_dct (dequantised (replicate 64 255) (pos 1023 ∷ zeros 63)) ≡ replicate 64 0 }
{}

/// A gray image of 8 by 8 pixels has a PNM of 75 bytes, a BMP of 1142, and a Targa of 82. Targa has blue before red.
pub fn images_have_their_texts()
    ensures pnm { end_text Pnm gray_square gray_rows ≡ codes "P5" ++ 10 ∷ codes "8 8" ++ 10 ∷ codes "255" ++ 10 ∷ replicate 64 128 }
    ensures bmp { length (end_text Bmp gray_square gray_rows) ≡ 1142 }
    ensures targa { end_text Targa gray_square gray_rows ≡ 0 ∷ 0 ∷ 3 ∷ replicate 9 0 ++ 8 ∷ 0 ∷ 8 ∷ 0 ∷ 8 ∷ 32 ∷ replicate 64 128 }
    ensures colours { end_text Targa two_colours ((1 ∷ 2 ∷ 3 ∷ 4 ∷ 5 ∷ 6 ∷ []) ∷ [])
        ≡ 0 ∷ 0 ∷ 2 ∷ replicate 9 0 ++ 2 ∷ 0 ∷ 1 ∷ 0 ∷ 24 ∷ 32 ∷ 3 ∷ 2 ∷ 1 ∷ 6 ∷ 5 ∷ 4 ∷ [] }
{}

/// Rows of 17 by 16 pixels of three components with factors 2x2,1x1,1x1, whose blocks have only a DC value: the ninth
/// row in colours, and the eighth in gray. At the last columns the colours of two blocks are mixed. (The numbers are
/// those of a program of another language.)
pub fn pictures_have_their_pixels()
    ensures colours { pixel_row flat_picture false true 8 ≡ joined ninth_row }
    ensures gray { pixel_row flat_picture true true 7 ≡ replicate 8 141 ++ replicate 8 103 ++ 166 ∷ [] }
    ensures told { info flat_picture false ≡ record { width = 17; height = 16; kind = Rgb; x_metre = 0; y_metre = 0 } }
{}

/// Factors of 2 with a greatest factor of 3 can't be displayed, nor can four colours, nor red, green and blue in
/// grayscale. Samples of 12 bits can't be displayed either, and that comes first.
pub fn some_pictures_are_not_shown()
    ensures shown { out_fault false flat_picture ≡ None }
    ensures factors { out_fault_of 8 YCbCr false ((3, 1) ∷ (2, 1) ∷ (1, 1) ∷ []) ≡ Some FractionalSampling }
    ensures gray { out_fault_of 8 YCbCr true ((3, 1) ∷ (2, 1) ∷ (1, 1) ∷ []) ≡ None }
    ensures four { out_fault_of 8 Cmyk false ((1, 1) ∷ (1, 1) ∷ (1, 1) ∷ (1, 1) ∷ []) ≡ Some ColourOut }
    ensures no_gray { out_fault_of 8 Colour.Rgb true ((1, 1) ∷ (1, 1) ∷ (1, 1) ∷ []) ≡ Some ColourOut }
    ensures deep { out_fault_of 12 Cmyk false ((1, 1) ∷ (1, 1) ∷ (1, 1) ∷ (1, 1) ∷ []) ≡ Some Precision }
{}
