//! Worked examples of cropped pictures, by computation: small files, a corner inside an iMCU, an area that isn't inside.
#![tactic(auto, unfolding(jpg_spec::specs::Bits::bits_of, jpg_spec::specs::Bits::whole_bytes, jpg_spec::specs::Codes::codes, jpg_spec_write::specs::FileText::file_text, jpg_spec_write::specs::FileText::scans_text, jpg_spec::specs::Geometry::units, jpg_spec::specs::Lists::chunks_of, jpg_spec::specs::Numbers::digits, jpg_spec_write::specs::ScanText::element_bits, jpg_spec_write::specs::ScanText::scan_data, jpg_spec_write::specs::ScriptFaults::script_fault))]

ghost use Rattle.std.specs.Prelude.{◌≡◌, ℕ, [], ◌∷◌, None, Some};
ghost use Rattle.jpg_spec.specs.Elements.{zeros};
ghost use Rattle.jpg_spec.specs.Scan.{Blocks};
ghost use Rattle.jpg_spec.specs.ExampleFiles.{gray_meaning};
ghost use Rattle.jpg_spec.specs.Examples.{gray_of};
ghost use Rattle.jpg_spec_move.specs.Cropped.{crop_fault, cropped};
ghost use Rattle.jpg_spec_move.specs.Examples.{area_of, cropping, extremes, extremes_cropped, plain_file, six_mcus};
ghost use Rattle.jpg_spec_move.specs.Moved.{picture_fault};
ghost use Rattle.jpg_spec_write.specs.declared.picture_fault.PictureFault.TheVariants.{CropOutside};

/// Of two blocks the second, of DC 1023, is cut out. A corner two samples further right moves back to this block, and
/// the opposite corner stays.
pub fn second_block_is_cut_out()
    ensures whole { extremes_cropped (area_of 8 8 8 0) ≡ plain_file (gray_of 8 8 []) (0xfe ∷ 0xff ∷ 0x00 ∷ 0xeb ∷ []) }
    ensures inside { extremes_cropped (area_of 4 8 10 0) ≡ plain_file (gray_of 6 8 []) (0xfe ∷ 0xff ∷ 0x00 ∷ 0xeb ∷ []) }
{}

/// An area may end at the picture's sides, and not one sample after them. It has samples.
pub fn areas_are_inside_or_not()
    ensures last { picture_fault (cropping (area_of 8 8 8 0)) (gray_meaning extremes) ≡ None }
    ensures across { picture_fault (cropping (area_of 8 8 9 0)) (gray_meaning extremes) ≡ Some CropOutside }
    ensures down { crop_fault (Some (area_of 8 8 8 1)) (gray_meaning extremes) ≡ Some CropOutside }
    ensures empty { crop_fault (Some (area_of 0 8 8 0)) (gray_meaning extremes) ≡ Some CropOutside }
{}

/// In a picture with iMCUs of 16 by 16 samples the corner at column 20 and row 19 moves to column 16 and row 16, and 5 by
/// 6 samples become 9 by 9. Two columns and rows of the first component's blocks, and one of each of the others, are left
/// out; outside the real grids there are zeros.
pub fn corners_move_to_the_grid()
    ensures width { (blocks : Blocks) → (cropped (area_of 5 6 20 19) (six_mcus blocks)).width ≡ 9 }
    ensures height { (blocks : Blocks) → (cropped (area_of 5 6 20 19) (six_mcus blocks)).height ≡ 9 }
    ensures first { (blocks : Blocks) → (cropped (area_of 5 6 20 19) (six_mcus blocks)).blocks 0 1 0 ≡ blocks 0 3 2 }
    ensures second { (blocks : Blocks) → (cropped (area_of 5 6 20 19) (six_mcus blocks)).blocks 1 0 0 ≡ blocks 1 1 1 }
    ensures outside { (blocks : Blocks) → (cropped (area_of 5 6 20 19) (six_mcus blocks)).blocks 1 1 0 ≡ zeros 64 }
{}
