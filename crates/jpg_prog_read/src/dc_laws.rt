//! Laws of the machines of DC scans, each on a function that does nothing.
ghost use Rattle.std.specs.Prelude.{◌≡◌, ◌+◌, ◌≤◌, ℤ};
ghost use Rattle.jpg_spec.specs.Elements.{Coding};
ghost use Rattle.jpg_spec.specs.Geometry.{Frame, bounds};
ghost use Rattle.jpg_coefs.specs.Machine.{KeepsUnits};
ghost use Rattle.jpg_prog_read.specs.declared.dc_first.DcFirst.{DcFirst};
ghost use Rattle.jpg_prog_read.specs.declared.dc_refine.DcRefine.{DcRefine};
ghost use Rattle.jpg_prog_read.specs.DcFirstPass.{first_pass};
ghost use Rattle.jpg_prog_read.specs.DcRefinement.{HasDcRoom, IsKnownDc, refinement};

/// In each state of the machine of a DC scan complete units are in the picture, and the next one follows (T.81,
/// G.1.2.1).
pub fn dc_machines_keep_units()
    ensures first { KeepsUnits DcFirst first_pass }
    ensures later { KeepsUnits DcRefine refinement }
{}

/// A DC value within the frame's bounds that is known down to bit al + 1 has room for bit al (T.81, G.1.1.1.1).
pub fn known_dc_values_have_room()
    ensures { (f : Frame) (c : Coding) (o : ℤ) → c.bounds ≡ bounds f → c.al + 1 ≤ (bounds f).al → IsKnownDc c o → HasDcRoom c o }
{}
