//! Laws over scripts: those without a fault pass where files are written, and the default scripts have none (T.81,
//! B.2.3, G.1.1.1).
ghost use Rattle.std.specs.Prelude.{◌≡◌, true, List, [], None};
ghost use Rattle.jpg_spec.specs.Geometry.{Frame};
ghost use Rattle.jpg_spec.specs.FrameHeader.{IsFrame};
ghost use Rattle.jpg_spec.specs.Meaning.{Meaning, colour_of};
ghost use Rattle.jpg_spec_write.specs.FileText.{frame_of_meaning};
ghost use Rattle.jpg_spec.specs.Grids.{frame_grids};
ghost use Rattle.jpg_spec_write.specs.Script.{Entry, sequential_script, is_progressive_script};
ghost use Rattle.jpg_spec_write.specs.ScriptFaults.{script_fault, standard_script};
ghost use Rattle.jpg_spec_write.specs.ScriptLaws.{PassesSequential, PassesProgressive, HasFewComponents, HasStandardScript};
ghost use Rattle.jpg_spec_write.specs.WrittenFile.{is_script_after, is_progressive_after};
ghost use Rattle.jpg_spec.specs.declared.frame.Colour.{Colour};

/// A script without a fault is one that files may be written in: what is written in it means its picture.
pub fn scripts_without_fault_pass()
    ensures sequential { (f : Frame) (script : List Entry) → PassesSequential f script → is_script_after f [] script ≡ true }
    ensures progressive { (H : Meaning) (script : List Entry) → PassesProgressive H script → is_progressive_after H [] script ≡ true }
{}

/// The default scripts have no fault: that of one scan of all components or of one for each, and the standard
/// progressive one, which exists for each meaning of one to four components in its colours.
pub fn own_scripts_have_no_fault()
    ensures sequential { (f : Frame) → IsFrame f → PassesSequential f (sequential_script f) }
    ensures standard { (f : Frame) (colour : Colour) → HasStandardScript f colour → script_fault f (standard_script f colour) ≡ None }
    ensures progressive { (f : Frame) (colour : Colour) → HasStandardScript f colour → is_progressive_script (standard_script f colour) ≡ true }
    ensures colours { (H : Meaning) → HasFewComponents H → HasStandardScript (frame_of_meaning H) (colour_of H) }
{}

/// Frames of the same grids have the same default scripts, and with the same precision a script has the same fault on
/// both: only the precision and the components' number and factors count.
pub fn scripts_look_at_grids()
    ensures sequential { (f g : Frame) → frame_grids f ≡ frame_grids g → sequential_script f ≡ sequential_script g }
    ensures standard { (f g : Frame) (colour : Colour) → frame_grids f ≡ frame_grids g → standard_script f colour ≡ standard_script g colour }
    ensures fault { (f g : Frame) (script : List Entry) → frame_grids f ≡ frame_grids g → f.precision ≡ g.precision → script_fault f script ≡ script_fault g script }
{}
