//! Worked examples of written files, by computation: restarts, several components, progressive scans.
#![tactic(auto, unfolding(jpg_spec::specs::Bits::bits_of, jpg_spec::specs::Bits::whole_bytes, jpg_spec::specs::Codes::codes, crate::specs::FileText::file_text, crate::specs::FileText::scans_text, jpg_spec::specs::FlatTable::flat_table, jpg_spec::specs::Geometry::units, jpg_spec::specs::Lists::chunks_of, jpg_spec::specs::Numbers::digits, crate::specs::ScanText::element_bits, crate::specs::ScanText::scan_data, crate::specs::ScanText::symbols_used))]

ghost use Rattle.std.specs.Prelude.{◌≡◌, [], ◌∷◌};
ghost use Rattle.jpg_spec_write.specs.FileText.{file_text, off, rows, mcus};
ghost use Rattle.jpg_spec_write.specs.FileExamples.{gray_scan, gray_passes, four_blocks, four_text, two_and_one, two_and_one_text, far_apart, far_apart_text, many_twos, many_twos_text, mixed_values, mixed_values_text, three_values, three_scan, three_scan_text, three_passes, three_passes_text};
ghost use Rattle.jpg_spec.specs.declared.frame.Process.TheVariants.{Baseline, Progressive};
ghost use Rattle.jpg_spec_write.specs.declared.huffman.Huffman.TheVariants.{Plain};

/// Two rows of two zero blocks, 28 AF each, with RST0 between them, or one block, 2B, between two of RST0 to RST2
/// (T.81, E.1.4).
pub fn restarts_stand_between_intervals()
    ensures rows { file_text Plain four_blocks gray_scan (rows 1) ≡ four_text 2 (0x28 ∷ 0xaf ∷ 0xff ∷ 0xd0 ∷ 0x28 ∷ 0xaf ∷ []) }
    ensures mcus { file_text Plain four_blocks gray_scan (mcus 1) ≡ four_text 1 (0x2b ∷ 0xff ∷ 0xd0 ∷ 0x2b ∷ 0xff ∷ 0xd1 ∷ 0x2b ∷ 0xff ∷ 0xd2 ∷ 0x2b ∷ []) }
{}

/// In the last pass 1 is newly sent after the value 2: its sign bit comes before the correction of the 2 (T.81,
/// G.1.2.3).
pub fn corrections_stand_after_the_sign()
    ensures { file_text Plain two_and_one gray_passes off ≡ two_and_one_text }
{}

/// In the last pass 1 is newly sent after sixteen zeros and the value -3, whose correction comes after ZRL (T.81,
/// G.1.2.3).
pub fn corrections_stand_after_runs()
    ensures { file_text Plain far_apart gray_passes off ≡ far_apart_text }
{}

/// In the last pass of two blocks of nineteen 2s, one EOB of two bands is followed by all 38 corrections (T.81,
/// G.1.2.3).
pub fn corrections_of_bands_stand_together()
    ensures { file_text Plain many_twos gray_passes off ≡ many_twos_text }
{}

/// Several values of both signs in three blocks, with a restart after the second: no EOB run crosses it (T.81,
/// G.1.2.2).
pub fn restarts_end_bands()
    ensures { file_text Plain mixed_values gray_passes (mcus 2) ≡ mixed_values_text }
{}

/// 17 by 16 samples of three components with factors 2x2,1x1,1x1: one scan with a restart between its two MCUs, and
/// padding blocks in the second (T.81, A.2.3 and F.1.2).
pub fn components_are_interleaved()
    ensures { file_text Plain (three_values Baseline) three_scan (mcus 1) ≡ three_scan_text }
{}

/// 17 by 16 samples of three components in ten progressive scans (T.81, G.1.1 and G.1.2).
pub fn components_are_sent_in_passes()
    ensures { file_text Plain (three_values Progressive) three_passes off ≡ three_passes_text }
{}
