//! Worked examples of images encoded, by computation.
ghost use Rattle.std.specs.Prelude.{◌≡◌, [], ◌∷◌, pos, negsuc, replicate, map, true, false, None, Some};
ghost use Rattle.jpg_spec.specs.Lists.{below};
ghost use Rattle.jpg_spec_image.specs.ForwardDct.{forward_dct, quantised};
ghost use Rattle.jpg_spec_image.specs.Quality.{quality_scale, scaled_quantiser, scaled_table, luminance_table, chrominance_table};
ghost use Rattle.jpg_spec_image.specs.TableText.{encoding_tables};
ghost use Rattle.jpg_spec_image.specs.Luminance.{to_ycc};
ghost use Rattle.jpg_spec_image.specs.Downsampling.{down_rows};
ghost use Rattle.jpg_spec_image.specs.EncodingExamples.{ramp_down};

/// A red pixel.
pub fn colours_are_told_apart()
    ensures { to_ycc 255 0 0 ≡ 76 ∷ 85 ∷ 255 ∷ [] }
{}

/// Means of two are rounded down and up alternately, and so are those of four; those of nine to the nearest number.
/// After its end the last sample of a row is repeated.
pub fn rows_are_downsampled()
    ensures two { down_rows 2 1 4 (10 ∷ 21 ∷ 31 ∷ 40 ∷ []) 2 ≡ 15 ∷ 36 ∷ [] }
    ensures four { down_rows 2 2 4 (10 ∷ 20 ∷ 31 ∷ 40 ∷ 50 ∷ 61 ∷ 70 ∷ 80 ∷ []) 2 ≡ 35 ∷ 55 ∷ [] }
    ensures nine { down_rows 3 3 3 (10 ∷ 20 ∷ 30 ∷ 1 ∷ 2 ∷ 3 ∷ 5 ∷ 5 ∷ 6 ∷ []) 1 ≡ 9 ∷ [] }
    ensures edge { down_rows 2 1 3 (10 ∷ 20 ∷ 30 ∷ []) 3 ≡ 15 ∷ 30 ∷ 30 ∷ [] }
{}

/// At quality 75 the quantisers are halved, at quality 10 they are five times as large.
pub fn qualities_scale_tables()
    ensures scales { map quality_scale (1 ∷ 10 ∷ 49 ∷ 50 ∷ 75 ∷ 100 ∷ []) ≡ 5000 ∷ 500 ∷ 102 ∷ 100 ∷ 50 ∷ 0 ∷ [] }
    ensures half { scaled_quantiser 50 false 17 ≡ 9 }
    ensures ten { (scaled_quantiser 500 false 16 ≡ 80) × (scaled_quantiser 500 false 121 ≡ 605) }
    ensures one_byte { scaled_quantiser 500 true 121 ≡ 255 }
    ensures least { scaled_table 0 false luminance_table ≡ replicate 64 1 }
{}

/// Tables of a file are scaled if a quality is given, and a third isn't used. A second that isn't there is K.2, at
/// quality 75 if none is given.
pub fn files_replace_tables()
    ensures none { encoding_tables None false None ≡ (scaled_table 50 false luminance_table, scaled_table 50 false chrominance_table) }
    ensures one { encoding_tables None false (Some (replicate 64 300 ∷ [])) ≡ (replicate 64 300, scaled_table 50 false chrominance_table) }
    ensures scaled { encoding_tables (Some 10) true (Some (replicate 64 300 ∷ replicate 64 3 ∷ replicate 64 9 ∷ [])) ≡ (replicate 64 255, replicate 64 15) }
{}

/// Samples from 0 to 63: each row has the same horizontal frequencies, and the vertical ones are those of the rows'
/// means. (The numbers are those of a program of another language.)
pub fn ramps_are_transformed()
    ensures ramp { forward_dct (below 64) ≡ negsuc 6175 ∷ negsuc 145 ∷ pos 0 ∷ negsuc 15 ∷ pos 0 ∷ negsuc 3 ∷ pos 0 ∷ negsuc 1 ∷ ramp_down }
    ensures quantised { map (λ t. quantised t 16) (negsuc 6175 ∷ negsuc 1165 ∷ pos 63 ∷ pos 64 ∷ negsuc 63 ∷ []) ≡ negsuc 47 ∷ negsuc 8 ∷ pos 0 ∷ pos 1 ∷ negsuc 0 ∷ [] }
{}
