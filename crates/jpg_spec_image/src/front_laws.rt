//! Laws over the front of a file that shows its first scans (T.81, B.2.1).
ghost use Rattle.std.specs.Prelude.{◌≡◌, ◌++◌, ◌∷◌, ℕ, List};
ghost use Rattle.jpg_spec.specs.FirstFault.{HasMeaning, IsEarly, IsFirstFault};
ghost use Rattle.jpg_spec.specs.UnfinishedFile.{IsWholeFile};
ghost use Rattle.jpg_spec.specs.Meaning.{Meaning};
ghost use Rattle.jpg_spec_image.specs.Front.{BeginsWith, EndsScan, IsFront};
ghost use Rattle.jpg_spec_image.specs.Laws.{EndsShort, IsStoppedIn};
ghost use Rattle.jpg_spec.specs.declared.fault.Fault.{Fault};
ghost use Rattle.jpg_spec.specs.declared.frame.Limits.{Limits};

/// A file has one front for so many scans, which is its own front.
pub fn files_have_one_front()
    ensures one { (limits : Limits) (scans : ℕ) (bytes a b : List ℕ) → IsFront limits scans bytes a → IsFront limits scans bytes b → a ≡ b }
    ensures itself { (limits : Limits) (scans : ℕ) (bytes front : List ℕ) → IsFront limits scans bytes front → IsFront limits scans front front }
{}

/// What follows a front that ends with a marker after a scan doesn't matter.
pub fn fronts_stay_with_more_bytes()
    ensures { (limits : Limits) (scans : ℕ) (bytes more front : List ℕ) → BeginsWith limits scans bytes front → BeginsWith limits scans (bytes ++ more) front }
{}

/// After a complete file no scan ends: what follows its EOI doesn't matter (T.81, B.2.1).
pub fn no_scan_ends_after_eoi()
    ensures { (limits : Limits) (scans byte : ℕ) (bytes more : List ℕ) (M : Meaning) → IsWholeFile limits bytes M → EndsScan limits scans (bytes ++ byte ∷ more) → ⊥ }
{}

/// A fault of a file other than Truncated is the first one of its front too, if it is inside the front.
pub fn faults_of_files_are_those_of_their_front()
    ensures { (limits : Limits) (scans : ℕ) (bytes front : List ℕ) (f : Fault) (n : ℕ) → IsStoppedIn limits scans bytes front f n → IsFirstFault limits front f n }
{}

/// A front that ends with a marker after a scan and has no fault is complete, or ends early.
pub fn fronts_end_early()
    ensures { (limits : Limits) (scans : ℕ) (front : List ℕ) → EndsShort limits scans front → (HasMeaning limits front → ⊥) → IsEarly limits front }
{}
