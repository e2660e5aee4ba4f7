//! Worked examples of image files: their images, or their first fault and its place, by computation.
ghost use Rattle.std.specs.Prelude.{[], ◌∷◌, ◌++◌, codes};
ghost use Rattle.jpg_spec.specs.Segments.{standard_limits};
ghost use Rattle.jpg_spec.specs.declared.fault.Fault.TheVariants as fault;
ghost use Rattle.jpg_spec_image.specs.ImageFaults.{IsImage, IsImageFault};
ghost use Rattle.jpg_spec_image.specs.ImageExamples.{one_gray, one_colour, colours_one_by_two, bmp_head, ten_bytes};

/// Samples are numbers in P2, and 9 of at most 9 is white. The last one ends at any byte, or with the input.
pub fn numbers_are_samples()
    ensures line { IsImage standard_limits (codes "P2 1 1 9 9\n") (one_gray 255) }
    ensures any { IsImage standard_limits (codes "P2 1 1 9 5x") (one_gray 142) }
    ensures end { IsImage standard_limits (codes "P2 1 1 9 9") (one_gray 255) }
    ensures long { IsImage standard_limits (codes "P2 01 1 000000000009 9\n") (one_gray 255) }
    ensures comments { IsImage standard_limits (codes "P3#a\n1\t1#b\n255 1 2\r3") (one_colour 1 2 3) }
{}

/// A number is judged at the byte after it, or at the input's end.
pub fn numbers_are_judged_after_them()
    ensures sample { IsImageFault standard_limits (codes "P2 1 1 9 10\n") fault.ImageValue 12 }
    ensures at_end { IsImageFault standard_limits (codes "P2 1 1 9 10") fault.ImageValue 11 }
    ensures width { IsImageFault standard_limits (codes "P6 0 1 255 ") fault.ImageHeader 5 }
    ensures pixels { IsImageFault standard_limits (codes "P6 65500 65500 255 ") fault.ImageHeader 15 }
    ensures most { IsImageFault standard_limits (codes "P5 1 1 256") fault.ImageUnsupported 10 }
    ensures letter { IsImageFault standard_limits (codes "P2 70000x") fault.ImageText 9 }
{}

/// Samples are bytes in P5, after one space byte.
pub fn bytes_are_samples()
    ensures white { IsImage standard_limits (codes "P5\n1 1\n255\n" ++ 255 ∷ []) (one_gray 255) }
    ensures space { IsImage standard_limits (codes "P5 1 1 255  ") (one_gray 32) }
    ensures short { IsImageFault standard_limits (codes "P5 1 1 255 ") fault.ImageShort 11 }
    ensures comment { IsImageFault standard_limits (codes "P5 1 1 255#") fault.ImageText 11 }
    ensures large { IsImageFault standard_limits (codes "P5 1 1 9 " ++ 10 ∷ []) fault.ImageValue 10 }
{}

/// Bitmaps and PAM aren't read, and other first bytes are no format.
pub fn formats_are_told_by_two_bytes()
    ensures pam { IsImageFault standard_limits (codes "P7") fault.ImageUnsupported 2 }
    ensures other { IsImageFault standard_limits (codes "P8") fault.ImageText 2 }
    ensures first { IsImageFault standard_limits (codes "GIF") fault.ImageText 1 }
    ensures none { IsImageFault standard_limits [] fault.ImageShort 0 }
{}

/// A limit of ten bytes: the last number isn't judged there, even if the input ends with it.
pub fn numbers_at_the_limit_are_not_judged()
    ensures right { IsImageFault ten_bytes (codes "P2 1 1 9 9") fault.InputTooLong 10 }
    ensures wrong { IsImageFault ten_bytes (codes "P2 1 1 9 99") fault.InputTooLong 10 }
    ensures whole { IsImage ten_bytes (codes "P5 1 1 9 \t") (one_gray 255) }
{}

/// Rows of a BMP are stored from the bottom, blue before red, in multiples of four bytes. The last one needs no more
/// than its samples.
pub fn rows_stand_from_the_bottom()
    ensures colours { IsImage standard_limits (bmp_head 54 2 24 0 0 ++ 1 ∷ 2 ∷ 3 ∷ 0 ∷ 4 ∷ 5 ∷ 6 ∷ []) (colours_one_by_two (6 ∷ 5 ∷ 4 ∷ 3 ∷ 2 ∷ 1 ∷ [])) }
    ensures palette { IsImage standard_limits (bmp_head 63 2 8 0 2 ++ 1 ∷ 2 ∷ 3 ∷ 0 ∷ 4 ∷ 5 ∷ 6 ∷ 0 ∷ 9 ∷ 1 ∷ 7 ∷ 7 ∷ 7 ∷ 0 ∷ []) (colours_one_by_two (3 ∷ 2 ∷ 1 ∷ 6 ∷ 5 ∷ 4 ∷ [])) }
    ensures index { IsImageFault standard_limits (bmp_head 62 2 8 0 2 ++ 1 ∷ 2 ∷ 3 ∷ 0 ∷ 4 ∷ 5 ∷ 6 ∷ 0 ∷ 2 ∷ []) fault.ImageValue 63 }
    ensures packed { IsImageFault standard_limits (bmp_head 54 2 24 1 0) fault.ImageUnsupported 54 }
    ensures from_the_top { IsImageFault standard_limits (bmp_head 54 4294967294 24 0 0) fault.ImageHeader 54 }
    ensures early { IsImageFault standard_limits (bmp_head 61 2 8 0 2) fault.ImageHeader 54 }
    ensures short { IsImageFault standard_limits (codes "BM") fault.ImageShort 2 }
{}
