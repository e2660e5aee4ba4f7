//! Worked examples of Targa files: their images, or their first fault and its place, by computation.
ghost use Rattle.std.specs.Prelude.{[], ◌∷◌, ◌++◌, replicate};
ghost use Rattle.jpg_spec.specs.declared.fault.Fault.TheVariants as fault;
ghost use Rattle.jpg_spec_image.specs.TargaFaults.{TargaMeans, IsTargaFault};
ghost use Rattle.jpg_spec_image.specs.TargaExamples.{targa_head, gray_image, colour_image};

/// Raw rows, from the bottom or from the top, of grays, or of blue, green and red.
pub fn raw_rows_stand_in_two_orders()
    ensures bottom { TargaMeans (targa_head 0 3 2 2 8 0 ++ 1 ∷ 2 ∷ 3 ∷ 4 ∷ []) (gray_image 2 2 (3 ∷ 4 ∷ 1 ∷ 2 ∷ [])) }
    ensures top { TargaMeans (targa_head 0 3 2 2 8 32 ++ 1 ∷ 2 ∷ 3 ∷ 4 ∷ []) (gray_image 2 2 (1 ∷ 2 ∷ 3 ∷ 4 ∷ [])) }
    ensures bottom_colours { TargaMeans (targa_head 0 2 1 2 24 0 ++ 1 ∷ 2 ∷ 3 ∷ 4 ∷ 5 ∷ 6 ∷ []) (colour_image 1 2 (6 ∷ 5 ∷ 4 ∷ 3 ∷ 2 ∷ 1 ∷ [])) }
    ensures top_colours { TargaMeans (targa_head 0 2 1 2 24 32 ++ 1 ∷ 2 ∷ 3 ∷ 4 ∷ 5 ∷ 6 ∷ []) (colour_image 1 2 (3 ∷ 2 ∷ 1 ∷ 6 ∷ 5 ∷ 4 ∷ [])) }
    ensures identifier { TargaMeans (targa_head 2 3 1 1 8 0 ++ 7 ∷ 8 ∷ 9 ∷ []) (gray_image 1 1 (9 ∷ [])) }
    ensures more { TargaMeans (targa_head 0 3 1 1 8 0 ++ 9 ∷ 10 ∷ []) (gray_image 1 1 (9 ∷ [])) }
{}

/// Packets of copies and of pixels pass the ends of rows, and the last one may pass the image's end. Of a packet of
/// pixels no more is read than the last one.
pub fn packets_pass_ends()
    ensures one { TargaMeans (targa_head 0 11 8 8 8 32 ++ 191 ∷ 128 ∷ []) (gray_image 8 8 (replicate 64 128)) }
    ensures rows { TargaMeans (targa_head 0 10 2 2 24 32 ++ 130 ∷ 1 ∷ 2 ∷ 3 ∷ 0 ∷ 4 ∷ 5 ∷ 6 ∷ []) (colour_image 2 2 (3 ∷ 2 ∷ 1 ∷ 3 ∷ 2 ∷ 1 ∷ 3 ∷ 2 ∷ 1 ∷ 6 ∷ 5 ∷ 4 ∷ [])) }
    ensures bottom { TargaMeans (targa_head 0 11 2 2 8 0 ++ 2 ∷ 1 ∷ 2 ∷ 3 ∷ 128 ∷ 4 ∷ []) (gray_image 2 2 (3 ∷ 4 ∷ 1 ∷ 2 ∷ [])) }
    ensures copies { TargaMeans (targa_head 0 10 1 1 24 32 ++ 255 ∷ 1 ∷ 2 ∷ 3 ∷ []) (colour_image 1 1 (3 ∷ 2 ∷ 1 ∷ [])) }
    ensures pixels { TargaMeans (targa_head 0 11 2 1 8 32 ++ 128 ∷ 7 ∷ 127 ∷ 8 ∷ []) (gray_image 2 1 (7 ∷ 8 ∷ [])) }
    ensures identifier { TargaMeans (targa_head 1 11 1 1 8 32 ++ 200 ∷ 129 ∷ 5 ∷ []) (gray_image 1 1 (5 ∷ [])) }
{}

/// The header is judged with its last byte. Bits 0 to 3 of the descriptor aren't looked at.
pub fn headers_are_judged_at_18()
    ensures map { IsTargaFault (0 ∷ 1 ∷ 11 ∷ replicate 9 0 ++ 8 ∷ 0 ∷ 8 ∷ 0 ∷ 8 ∷ 32 ∷ []) fault.ImageUnsupported 18 }
    ensures kind { IsTargaFault (targa_head 0 1 8 8 8 32 ++ 1 ∷ []) fault.ImageUnsupported 18 }
    ensures gray_depth { IsTargaFault (targa_head 0 3 8 8 24 32) fault.ImageUnsupported 18 }
    ensures colour_depth { IsTargaFault (targa_head 0 10 8 8 8 32) fault.ImageUnsupported 18 }
    ensures columns { IsTargaFault (targa_head 0 3 8 8 8 16) fault.ImageUnsupported 18 }
    ensures interleaved { IsTargaFault (targa_head 0 3 8 8 8 64) fault.ImageUnsupported 18 }
    ensures first { IsTargaFault (targa_head 0 3 0 8 24 32) fault.ImageUnsupported 18 }
    ensures side { IsTargaFault (targa_head 0 3 0 8 8 32) fault.ImageHeader 18 }
    ensures pixels { IsTargaFault (0 ∷ 0 ∷ 3 ∷ replicate 9 0 ++ 220 ∷ 255 ∷ 220 ∷ 255 ∷ 8 ∷ 32 ∷ []) fault.ImageHeader 18 }
    ensures low_bits { TargaMeans (targa_head 0 3 1 1 8 47 ++ 9 ∷ []) (gray_image 1 1 (9 ∷ [])) }
{}

/// The input ends before the last pixel.
pub fn short_files_are_told_at_their_end()
    ensures packet { IsTargaFault (targa_head 0 11 8 8 8 32 ++ 191 ∷ []) fault.ImageShort 19 }
    ensures raw { IsTargaFault (targa_head 0 3 1 2 8 32 ++ 1 ∷ []) fault.ImageShort 19 }
    ensures head { IsTargaFault (0 ∷ 1 ∷ []) fault.ImageShort 2 }
    ensures identifier { IsTargaFault (targa_head 3 3 1 1 8 32 ++ 1 ∷ 2 ∷ []) fault.ImageShort 20 }
    ensures none { IsTargaFault [] fault.ImageShort 0 }
{}
