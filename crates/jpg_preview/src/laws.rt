//! Laws over what a preview shows: it is of the front of the file (T.81, B.2.1).
ghost use Rattle.std.specs.Prelude.{ℕ, List};
ghost use Rattle.jpg_spec.specs.declared.frame.Limits.{Limits};
ghost use Rattle.jpg_spec_image.specs.Front.{IsFront};
ghost use Rattle.jpg_file.specs.Read.ReadFile.{ReaderState};
ghost use Rattle.jpg_preview.specs.Viewing.{HasFront, IsShown, ShowsFront};

/// The bytes that are shown are the front of the file, whatever follows them; or the file is complete with them, and no
/// marker of it after a scan ends the front before. Then the front is all of the file, or they are.
pub fn previews_show_the_front()
    ensures front { (scans : ℕ) (bytes : List ℕ) (r : ReaderState) → IsShown scans bytes r → ShowsFront scans bytes r }
    ensures found { (scans : ℕ) (bytes rest : List ℕ) (r : ReaderState) → IsShown scans bytes r → HasFront scans bytes rest r }
{}

/// No file is without a front.
#[tactic(auto, using(crate::proofs::FrontFound::never_without))]
pub fn files_have_a_front()
    ensures { (limits : Limits) (scans : ℕ) (bytes : List ℕ) → ((front : List ℕ) → IsFront limits scans bytes front → ⊥) → ⊥ }
{}
