//! Laws over image files that are read: bytes have one image or one first fault (release 6b's image files).
ghost use Rattle.std.specs.Prelude.{◌≡◌, ◌⊎◌, ◌++◌, ◌∷◌, ℕ, List};
ghost use Rattle.jpg_spec.specs.Laws.{AtMostOneFault};
ghost use Rattle.jpg_spec.specs.declared.fault.Fault.{Fault};
ghost use Rattle.jpg_spec.specs.declared.frame.Limits.{Limits};
ghost use Rattle.jpg_spec_image.specs.Images.{Image};
ghost use Rattle.jpg_spec_image.specs.ImageFaults.{IsImage, IsImageFault};
ghost use Rattle.jpg_spec_image.specs.ImageLaws.{HasImage, HasFault, ImageAnswer, HasImageAnswer};

/// Bytes have at most one image.
pub fn bytes_hold_one_image()
    ensures { (limits : Limits) (bytes : List ℕ) (x y : Image) → IsImage limits bytes x → IsImage limits bytes y → x ≡ y }
{}

/// Bytes have at most one first fault, at one place.
pub fn images_show_one_fault()
    ensures { (limits : Limits) (bytes : List ℕ) → AtMostOneFault (IsImageFault limits bytes) }
{}

/// Bytes have an image or a fault, and never both.
pub fn bytes_are_images_or_faulty()
    ensures one_of_them { (limits : Limits) (bytes : List ℕ) → HasImage limits bytes ⊎ HasFault limits bytes }
    ensures never_both { (limits : Limits) (bytes : List ℕ) → HasImage limits bytes → HasFault limits bytes → ⊥ }
{}

/// The last byte of some bytes has at most one result: a complete image, or a fault.
pub fn images_come_to_one_thing()
    ensures { (bytes : List ℕ) (x y : ImageAnswer) → HasImageAnswer bytes x → HasImageAnswer bytes y → x ≡ y }
{}

/// After bytes that are a complete image or have a fault further bytes have no result.
pub fn nothing_comes_after()
    ensures { (front : List ℕ) (b : ℕ) (rest : List ℕ) (x y : ImageAnswer) → HasImageAnswer front x → HasImageAnswer (front ++ b ∷ rest) y → ⊥ }
{}
