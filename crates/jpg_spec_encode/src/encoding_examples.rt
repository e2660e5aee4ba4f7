//! Worked examples of images encoded, by computation.
ghost use Rattle.std.specs.Prelude.{◌≡◌, [], ◌∷◌, pos, length, drop, true, false, None, Some, slice_index};
ghost use Rattle.jpg_spec.specs.Elements.{zeros};
ghost use Rattle.jpg_spec_encode.specs.Encoded.{encoded, encoded_text, encode_fault};
ghost use Rattle.jpg_spec_encode.specs.EncodingExamples.{white_pixel, six_colours, of_quality, usual_factors, six_luminance, six_blue, six_red, six_coded};
ghost use Rattle.jpg_spec.specs.declared.frame.Process.TheVariants.{Baseline, Extended};
ghost use Rattle.jpg_spec_write.specs.declared.picture_fault.PictureFault.TheVariants.{FractionalFactors};

/// A white pixel is one block, whose DC is 127. Its file has 332 bytes: the first quantiser is 8, the data are F7 FA.
pub fn white_pixels_are_encoded()
    ensures block { (encoded (of_quality 75 false ((1, 1) ∷ [])) white_pixel).blocks 0 0 0 ≡ pos 127 ∷ zeros 63 }
    ensures none { encode_fault (of_quality 75 false ((1, 1) ∷ [])) white_pixel ≡ None }
    ensures long { length (encoded_text (of_quality 75 false ((1, 1) ∷ [])) white_pixel) ≡ 332 }
    ensures first { slice_index (encoded_text (of_quality 75 false ((1, 1) ∷ [])) white_pixel) 25 ≡ 8 }
    ensures data { drop 328 (encoded_text (of_quality 75 false ((1, 1) ∷ [])) white_pixel) ≡ 0xf7 ∷ 0xfa ∷ 0xff ∷ 0xd9 ∷ [] }
{}

/// At quality 10 there are quantisers above 255, for which SOF1 is needed; not so if baseline is asked for.
pub fn large_quantisers_need_sof1()
    ensures extended { (encoded (of_quality 10 false ((1, 1) ∷ [])) white_pixel).process ≡ Extended }
    ensures baseline { (encoded (of_quality 10 true ((1, 1) ∷ [])) white_pixel).process ≡ Baseline }
{}

/// An image of 3 by 2 colours: one block of each component, and its file of 671 bytes. (The numbers are those of
/// programs of other languages.)
pub fn colours_are_encoded()
    ensures luminance { (encoded (of_quality 75 false usual_factors) six_colours).blocks 0 0 0 ≡ six_luminance }
    ensures blue { (encoded (of_quality 75 false usual_factors) six_colours).blocks 1 0 0 ≡ six_blue }
    ensures red { (encoded (of_quality 75 false usual_factors) six_colours).blocks 2 0 0 ≡ six_red }
    ensures others { (encoded (of_quality 75 false usual_factors) six_colours).blocks 0 1 0 ≡ zeros 64 }
    ensures long { length (encoded_text (of_quality 75 false usual_factors) six_colours) ≡ 671 }
    ensures coded { drop 609 (encoded_text (of_quality 75 false usual_factors) six_colours) ≡ six_coded }
{}

/// Factors of 2 with a greatest factor of 3 have no integer ratio.
pub fn some_factors_are_refused()
    ensures { encode_fault (of_quality 75 false ((3, 1) ∷ (2, 1) ∷ (1, 1) ∷ [])) six_colours ≡ Some (FractionalFactors 1) }
{}
