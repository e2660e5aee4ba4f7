//! Worked examples of the scans that a file admits, by computation (T.81, B.2.3, B.2.4, G.1.1.1).
#![tactic(auto, unfolding(crate::specs::Codes::are_codes, crate::specs::FrameHeader::checked_frame, crate::specs::HuffContents::huffman_table_of, crate::specs::HuffContents::huffman_tables_of, crate::specs::QuantContents::quant_table_of, crate::specs::QuantContents::quant_tables_of, crate::specs::ScanContents::checked_head))]

ghost use Rattle.std.specs.Prelude.{◌≡◌, [], ◌∷◌, None, Some, replicate};
ghost use Rattle.jpg_spec.specs.Segments.{standard_limits};
ghost use Rattle.jpg_spec.specs.Items.{contents_rule};
ghost use Rattle.jpg_spec.specs.HistoryExamples.{ones_table, dc_table, ac_table, scan_contents, large_frame, large_contents, sequential_start, progressive_start, after_dc, behind_first};
ghost use Rattle.jpg_spec.specs.declared.fault.Fault.TheVariants.{Progression, ScanParameters, QuantChanged, MissingTable, RepeatedScan, McuTooLarge};

/// After DC a band of AC has its first pass and then a refinement by one bit. None comes before DC, no refinement comes
/// first, and none skips a bit.
pub fn passes_come_in_order()
    ensures first { contents_rule standard_limits after_dc 0xda (scan_contents 1 63 0x01) ≡ None }
    ensures refinement { contents_rule standard_limits behind_first 0xda (scan_contents 1 63 0x10) ≡ None }
    ensures before_dc { contents_rule standard_limits progressive_start 0xda (scan_contents 1 63 0x01) ≡ Some Progression }
    ensures alone { contents_rule standard_limits after_dc 0xda (scan_contents 1 63 0x10) ≡ Some Progression }
    ensures further { contents_rule standard_limits behind_first 0xda (scan_contents 1 63 0x21) ≡ Some Progression }
{}

/// Al is at most 10, and a band of DC has no AC.
pub fn scans_have_parameters()
    ensures al { contents_rule standard_limits after_dc 0xda (scan_contents 1 63 0x0b) ≡ Some ScanParameters }
    ensures band { contents_rule standard_limits progressive_start 0xda (scan_contents 0 63 0) ≡ Some ScanParameters }
{}

/// A table is missing, or was changed between two scans of its component.
pub fn scans_have_their_tables()
    ensures missing { contents_rule standard_limits sequential_start 0xda (scan_contents 0 63 0) ≡ Some MissingTable }
    ensures changed { contents_rule standard_limits ((0xdb, 0 ∷ replicate 64 2) ∷ after_dc) 0xda (scan_contents 1 63 0x01) ≡ Some QuantChanged }
    ensures same { contents_rule standard_limits (ones_table ∷ after_dc) 0xda (scan_contents 1 63 0x01) ≡ None }
{}

/// A component has one sequential scan, and an MCU of several components at most ten blocks.
pub fn sequential_scans_are_admitted()
    ensures one { contents_rule standard_limits (ac_table ∷ sequential_start) 0xda (scan_contents 0 63 0) ≡ None }
    ensures again { contents_rule standard_limits ((0xda, scan_contents 0 63 0) ∷ ac_table ∷ sequential_start) 0xda (scan_contents 0 63 0) ≡ Some RepeatedScan }
    ensures large { contents_rule standard_limits (ac_table ∷ dc_table ∷ (0xc0, large_frame) ∷ ones_table ∷ []) 0xda large_contents ≡ Some McuTooLarge }
{}
