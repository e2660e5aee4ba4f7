//! Worked examples of data that end early, by computation (T.81, F.2.2 and G.1.2).
ghost use Rattle.std.specs.Prelude.{[], ◌∷◌, pos};
ghost use Rattle.jpg_spec.specs.Bits.{bits_of_bytes};
ghost use Rattle.jpg_spec.specs.EarlyExamples.{ac_due, late_coding, one_and_dc, one_correction, short_coding, two_bands, two_blocks, two_zero};
ghost use Rattle.jpg_spec.specs.Parts.{StandsInUnits};

/// The data of two gray blocks that end after the byte 28: 00 and 1010 are the first block, which is complete, and 00
/// is the DC of the second, whose end is missing.
pub fn blocks_are_whole_up_to_the_last_one()
    ensures { StandsInUnits short_coding two_blocks one_and_dc ac_due (bits_of_bytes (0x28 ∷ [])) }
{}

/// An EOB of two bands in a refinement, of which the first band's correction is there and the second's is missing: the
/// first band is complete, and has its new values.
pub fn bands_are_whole_with_their_own_corrections()
    ensures { StandsInUnits late_coding two_bands (pos 3 ∷ pos 0 ∷ []) (two_zero ∷ []) one_correction }
{}
