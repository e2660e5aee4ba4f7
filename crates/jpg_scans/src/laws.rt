//! Laws over the definitions, each on a function that does nothing.
ghost use Rattle.std.specs.Prelude.{ℕ, List, [], Err};
ghost use Rattle.jpg_spec.specs.TextForms.{HasOneAnswer};
ghost use Rattle.jpg_spec_write.specs.ScriptGrammar.{TellsScript, script_form};
ghost use Rattle.jpg_spec.specs.declared.fault.Fault.TheVariants.{RepeatedScan, Progression, ScriptText};
ghost use Rattle.jpg_scans.specs.WrongTexts.{wrong_text, comma_text, large_text};
ghost use Rattle.jpg_scans.specs.Order.{IsJudgedFirst};

/// After any segments a scan header is refused with RepeatedScan or Progression exactly if it has that fault after the
/// scans so far, whatever the tables are.
pub fn order_is_judged_first()
    ensures repeated { IsJudgedFirst RepeatedScan }
    ensures progression { IsJudgedFirst Progression }
{}

/// A text encodes one script, or is wrong at one place.
pub fn texts_tell_one_script()
    ensures { (text : List ℕ) → HasOneAnswer script_form text }
{}

/// Texts are wrong at the first byte that no text of the form has there: an `x` after `0 1 `, a semicolon after a
/// comma, the digit that takes a number above 255. A text without an entry ends too early.
pub fn wrong_texts_have_a_place()
    ensures byte { TellsScript wrong_text (Err (record { fault = ScriptText; at = 5 })) }
    ensures comma { TellsScript comma_text (Err (record { fault = ScriptText; at = 5 })) }
    ensures large { TellsScript large_text (Err (record { fault = ScriptText; at = 5 })) }
    ensures none { TellsScript [] (Err (record { fault = ScriptText; at = 0 })) }
{}
