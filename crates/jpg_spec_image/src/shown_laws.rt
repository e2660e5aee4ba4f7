//! Laws over files that can't be displayed (release 6b's djpeg).
ghost use Rattle.std.specs.Prelude.{◌≡◌, ℕ, Bool, List, take};
ghost use Rattle.jpg_spec.specs.Early.{IsMeaning};
ghost use Rattle.jpg_spec.specs.UnfinishedFile.{UnfinishedFile};
ghost use Rattle.jpg_spec_image.specs.Laws.{AreNotShownAlike};
ghost use Rattle.jpg_spec.specs.Meaning.{Meaning};
ghost use Rattle.jpg_spec_image.specs.NotShown.{IsNotShown};
ghost use Rattle.jpg_spec.specs.declared.fault.FaultAt.{FaultAt};
ghost use Rattle.jpg_spec.specs.declared.frame.Limits.{Limits};

/// A file can't be displayed for at most one reason, at one place.
pub fn files_are_not_shown_for_one_reason()
    ensures { (limits : Limits) (gray : Bool) (bytes : List ℕ) (f g : FaultAt) → IsNotShown limits gray bytes f → IsNotShown limits gray bytes g → f ≡ g }
{}

/// Up to the place where it is known that a file can't be displayed, the file has no fault.
pub fn no_fault_comes_before_what_is_not_shown()
    ensures { (limits : Limits) (gray : Bool) (bytes : List ℕ) (f : FaultAt) → IsNotShown limits gray bytes f → UnfinishedFile limits (take f.at bytes) }
{}

/// A file that means a picture, also one that ends early, can't be displayed exactly if the picture can't, and for that
/// reason: what follows its first scan header changes neither precision nor colours nor factors.
pub fn pictures_are_not_shown_for_their_own_reason()
    ensures { (limits : Limits) (gray : Bool) (bytes : List ℕ) (M : Meaning) → IsMeaning limits bytes M → AreNotShownAlike limits gray bytes M }
{}
