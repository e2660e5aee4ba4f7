//! Laws on images encoded: they can be written, and their files mean them (T.81, B.2.1, F.1.2).
ghost use Rattle.std.specs.Prelude.{ℕ, List};
ghost use Rattle.jpg_spec.specs.Geometry.{bounds_of};
ghost use Rattle.jpg_spec.specs.Elements.{IsBlockIn};
ghost use Rattle.jpg_spec.specs.Segments.{AreQuantisers};
ghost use Rattle.jpg_spec_image.specs.ForwardDct.{forward_dct, quantised_block};
ghost use Rattle.jpg_spec.specs.EncodingLaws.{AreSamples};

/// For any samples and quantisers the coefficients of a block are in the range of precision 8: DC from -1024 to 1016,
/// AC from -1020 to 1020.
pub fn quantised_blocks_are_in_range()
    ensures { (quants samples : List ℕ) → AreQuantisers quants → AreSamples samples → IsBlockIn (bounds_of 8) (quantised_block quants (forward_dct samples)) }
{}
