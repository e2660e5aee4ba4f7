//! Laws over files and over the definitions of this crate, each on a function that does nothing.
ghost use Rattle.std.specs.Prelude.{ℕ, List};
ghost use Rattle.jpg_spec.specs.FirstFault.{HasMeaning, IsEarly};
ghost use Rattle.jpg_spec.specs.declared.frame.Limits.{Limits};
ghost use Rattle.jpg_file.specs.Laws.{HasNoFault};
ghost use Rattle.jpg_file.specs.Read.InData.{RowsAreDueInOrder};

/// No bytes are left out: they are a complete file, or a file that ends early, or have a first fault (T.81, B.2.1).
#[tactic(auto, using(crate::proofs::Files::ItemBytes::not_left_out))]
pub fn no_file_is_left_out()
    ensures { (limits : Limits) (bytes : List ℕ) → HasNoFault limits bytes → (HasMeaning limits bytes → ⊥) → (IsEarly limits bytes → ⊥) → ⊥ }
{}

/// While a scan of all components is read MCU row by MCU row, the number of units that are left determines the next
/// places.
pub fn rows_are_due_in_order()
    ensures { RowsAreDueInOrder }
{}
