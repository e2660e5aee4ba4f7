//! Worked examples: what the definitions say about small pictures, by computation.
#![tactic(auto, unfolding(crate::specs::Bits::bits_of, crate::specs::Bits::whole_bytes, crate::specs::Codes::codes, crate::specs::Geometry::units, crate::specs::Lists::chunks_of, crate::specs::Numbers::digits))]

ghost use Rattle.std.specs.Prelude.{◌≡◌, [], ◌∷◌, ◌*◌};
ghost use Rattle.jpg_spec.specs.Geometry.{mcus_across, mcus_down, blocks_across, blocks_down, component_at, units};
ghost use Rattle.jpg_spec.specs.Examples.{three_frame, three_units, real_at};

/// 17 by 16 samples make 2 MCUs by 1.
pub fn sides_make_mcus()
    ensures { (mcus_across three_frame ≡ 2) × (mcus_down three_frame ≡ 1) }
{}

/// The first component has 3 by 2 real blocks in a padded grid of 4 by 2, each other one 2 by 1 in a grid of 2 by 1.
pub fn components_have_real_and_padded_blocks()
    ensures first { (blocks_across three_frame (component_at three_frame 0) ≡ 3) × (blocks_down three_frame (component_at three_frame 0) ≡ 2) }
    ensures first_padded { (mcus_across three_frame * (component_at three_frame 0).h ≡ 4) × (mcus_down three_frame * (component_at three_frame 0).v ≡ 2) }
    ensures second { (blocks_across three_frame (component_at three_frame 1) ≡ 2) × (blocks_down three_frame (component_at three_frame 1) ≡ 1) }
    ensures second_padded { (mcus_across three_frame * (component_at three_frame 1).h ≡ 2) × (mcus_down three_frame * (component_at three_frame 1).v ≡ 1) }
    ensures third { (blocks_across three_frame (component_at three_frame 2) ≡ 2) × (blocks_down three_frame (component_at three_frame 2) ≡ 1) }
    ensures third_padded { (mcus_across three_frame * (component_at three_frame 2).h ≡ 2) × (mcus_down three_frame * (component_at three_frame 2).v ≡ 1) }
{}

/// The units of an interleaved scan of the three components, and those of a scan of only the second.
pub fn units_stand_in_order()
    ensures several { units three_frame (0 ∷ 1 ∷ 2 ∷ []) ≡ three_units }
    ensures single { units three_frame (1 ∷ []) ≡ real_at 1 0 0 ∷ real_at 1 1 0 ∷ [] }
{}
