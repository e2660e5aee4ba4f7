//! Worked examples of scripts (T.81, B.2.3, G.1.1.1; the manual's wizard.txt).
#![tactic(auto, unfolding(crate::specs::ScriptFaults::script_fault))]

ghost use Rattle.std.specs.Prelude.{◌≡◌, ◌∷◌, [], None, Some};
ghost use Rattle.jpg_spec.specs.Examples.{three_frame};
ghost use Rattle.jpg_spec_write.specs.ScriptFaults.{script_fault, of_one, standard_script};
ghost use Rattle.jpg_spec_write.specs.ScriptGrammar.{Spells};
ghost use Rattle.jpg_spec_write.specs.ScriptExamples.{gray_frame, half_text, half_script, short_text, short_script};
ghost use Rattle.jpg_spec.specs.declared.frame.Colour.TheVariants.{YCbCr};
ghost use Rattle.jpg_spec_write.specs.declared.picture_fault.PictureFault.TheVariants.{ScriptComponent, ScriptMcu, ScriptBand, ScriptIncomplete};

/// The faults of small scripts: DC known only down to bit 1, an unsent coefficient, no such component, components that
/// don't ascend, AC before DC, a component twice.
pub fn scripts_show_faults()
    ensures half { script_fault gray_frame half_script ≡ Some (ScriptIncomplete 0 0 (Some 1)) }
    ensures unsent { script_fault gray_frame (of_one 0 0 0 0 0 ∷ of_one 0 1 4 0 0 ∷ []) ≡ Some (ScriptIncomplete 0 5 None) }
    ensures component { script_fault gray_frame (of_one 1 0 63 0 0 ∷ []) ≡ Some (ScriptComponent 0) }
    ensures order { script_fault three_frame (record { components = 1 ∷ 0 ∷ []; ss = 0; se = 63; ah = 0; al = 0 } ∷ []) ≡ Some (ScriptComponent 0) }
    ensures before_dc { script_fault gray_frame (of_one 0 1 63 0 0 ∷ []) ≡ Some (ScriptBand 0) }
    ensures twice { script_fault gray_frame (of_one 0 0 63 0 0 ∷ of_one 0 0 63 0 0 ∷ []) ≡ Some (ScriptBand 1) }
{}

/// The texts of two scripts.
pub fn texts_tell_scripts()
    ensures half { Spells half_text half_script }
    ensures short { Spells short_text short_script }
{}
