//! Worked examples of markers, segments, comments and words: what the definitions say, by computation.
#![tactic(auto, unfolding(crate::specs::Codes::are_codes, crate::specs::FrameHeader::checked_frame, crate::specs::HuffContents::huffman_table_of, crate::specs::HuffContents::huffman_tables_of, crate::specs::QuantContents::quant_table_of, crate::specs::QuantContents::quant_tables_of, crate::specs::ScanContents::checked_head))]

ghost use Rattle.std.specs.Prelude.{◌≡◌, [], ◌∷◌, ◌++◌, Some, None, Ok, Err, codes, replicate};
ghost use Rattle.jpg_spec.specs.Segments.{standard_limits};
ghost use Rattle.jpg_spec.specs.Typical.{dc_luma_counts, dc_luma_values};
ghost use Rattle.jpg_spec.specs.HuffContents.{parsed_definition, huffman_tables};
ghost use Rattle.jpg_spec.specs.QuantContents.{quant_tables};
ghost use Rattle.jpg_spec.specs.Markers.{code_fault, kept_count, kept_rule, Reaches, at_fault};
ghost use Rattle.jpg_spec.specs.declared.fault.Fault.TheVariants as fault;
ghost use Rattle.jpg_spec.specs.Items.{contents_rule};
ghost use Rattle.jpg_spec.specs.declared.fault.Fault.TheVariants.{MarkersTooLarge};

/// Before a frame header EOI, a scan header and an arithmetic process aren't allowed; after one EOI and a scan header
/// are, and no second frame header. A restart marker and SOI are never allowed among segments (T.81, Table B.1).
pub fn codes_are_judged()
    ensures end { code_fault [] 0xd9 ≡ Some fault.UnexpectedMarker }
    ensures scan { code_fault [] 0xda ≡ Some fault.SosBeforeSof }
    ensures arithmetic { code_fault [] 0xc9 ≡ Some fault.UnsupportedProcess }
    ensures second { code_fault ((0xc0, []) ∷ []) 0xc2 ≡ Some fault.SecondFrame }
    ensures restart { code_fault ((0xc0, []) ∷ []) 0xd0 ≡ Some fault.UnexpectedMarker }
    ensures start { code_fault ((0xc0, []) ∷ []) 0xd8 ≡ Some fault.UnexpectedMarker }
    ensures scan_behind { code_fault ((0xc0, []) ∷ []) 0xda ≡ None }
    ensures end_after { code_fault ((0xc0, []) ∷ []) 0xd9 ≡ None }
{}

/// A comment of 11 bytes counts as 15; the JFIF header of 14 bytes before it counts as nothing, and a second one as 18
/// (JFIF 1.02).
pub fn kept_markers_count()
    ensures first { kept_count ((0xfe, replicate 11 0) ∷ (0xe0, codes "JFIF" ++ replicate 10 0) ∷ []) ≡ 15 }
    ensures second { kept_count ((0xe0, codes "JFIF" ++ replicate 10 0) ∷ (0xe0, codes "JFIF" ++ replicate 10 0) ∷ []) ≡ 18 }
{}

/// FF D8 FF FF FF E0 00 01: after two fill bytes a segment whose length doesn't count itself. Its last byte reveals the
/// fault (T.81, B.1.1.4).
pub fn lengths_count_themselves()
    ensures { Reaches (kept_rule standard_limits) (0xff ∷ 0xd8 ∷ 0xff ∷ 0xff ∷ 0xff ∷ 0xe0 ∷ 0x00 ∷ 0x01 ∷ []) (at_fault fault.BadLength) }
{}

/// A segment of tables may be empty. K.3 as table 0 is a table; two codes of one bit are too many, and
/// so is class 2 (T.81, B.2.4.1, B.2.4.2, Annex C).
pub fn table_segments_are_told()
    ensures none { huffman_tables [] ≡ Ok [] }
    ensures no_quantisers { quant_tables [] ≡ Ok [] }
    ensures one { huffman_tables (0 ∷ dc_luma_counts ++ dc_luma_values) ≡ Ok (parsed_definition 0 (dc_luma_counts ++ dc_luma_values) ∷ []) }
    ensures overfull { huffman_tables (0 ∷ 2 ∷ replicate 15 0 ++ 0 ∷ 1 ∷ []) ≡ Err fault.BadHuffman }
    ensures class { huffman_tables (0x20 ∷ dc_luma_counts ++ dc_luma_values) ≡ Err fault.BadHuffman }
    ensures short { huffman_tables (0 ∷ 1 ∷ replicate 15 0) ≡ Err fault.BadLength }
{}

/// A comment of 11 bytes counts as 15: a limit of 14 refuses it.
pub fn kept_markers_have_a_limit()
    ensures within { contents_rule (record standard_limits { kept = 15 }) [] 0xfe (replicate 11 0) ≡ None }
    ensures above { contents_rule (record standard_limits { kept = 14 }) [] 0xfe (replicate 11 0) ≡ Some MarkersTooLarge }
{}
