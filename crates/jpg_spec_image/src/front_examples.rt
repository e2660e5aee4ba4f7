//! Worked examples of fronts, by computation: when each component has a scan, and how many scans there are.
#![tactic(auto, unfolding(jpg_spec::specs::FrameHeader::checked_frame, jpg_spec::specs::ScanContents::checked_head))]

ghost use Rattle.std.specs.Prelude.{◌≡◌, [], ◌∷◌, true, false};
ghost use Rattle.jpg_spec.specs.Markers.{is_within};
ghost use Rattle.jpg_spec_image.specs.Front.{scans_in};
ghost use Rattle.jpg_spec_image.specs.FrontExamples.{dc_scan, first_scan, name_each, one_component, other_scan, three_components, two_scans, whole_scan};

/// The DC scan of a gray progressive picture names its one component. Of three components a scan of the first doesn't
/// name all, a second one of the others does, and so does one scan of all (T.81, B.2.3).
pub fn scans_name_each_component()
    ensures none { name_each (one_component ∷ []) ≡ false }
    ensures gray { name_each ((0xda, dc_scan) ∷ one_component ∷ []) ≡ true }
    ensures first { name_each (first_scan ∷ three_components ∷ []) ≡ false }
    ensures second { name_each (other_scan ∷ first_scan ∷ three_components ∷ []) ≡ true }
    ensures all { name_each (whole_scan ∷ three_components ∷ []) ≡ true }
{}

/// Two scans, with tables between them. RST0 to RST7 end no data of a scan; EOI does, and so does a table's marker.
pub fn scans_are_counted()
    ensures two { scans_in two_scans ≡ 2 }
    ensures restarts { (is_within 0xd0 0xd7 0xd0 ≡ true) × (is_within 0xd0 0xd7 0xd7 ≡ true) }
    ensures others { (is_within 0xd0 0xd7 0xd9 ≡ false) × (is_within 0xd0 0xd7 0xc4 ≡ false) }
{}
