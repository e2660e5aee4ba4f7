//! Laws over Targa files that are read: bytes have one image or one first fault, and the text of a Targa file has the
//! image of its rows (Truevision TGA File Format Specification, version 2.0).
ghost use Rattle.std.specs.Prelude.{◌≡◌, ◌⊎◌, ◌<◌, ℕ, List, length, All};
ghost use Rattle.jpg_spec.specs.Laws.{AtMostOneFault};
ghost use Rattle.jpg_spec_image.specs.Images.{Image};
ghost use Rattle.jpg_spec_image.specs.TargaFaults.{TargaMeans, IsTargaFault, IsOpenTarga};
ghost use Rattle.jpg_spec_image.specs.TargaLaws.{HasTarga, HasTargaFault, AreRowsOf, targa_text, image_of_rows};
ghost use Rattle.jpg_spec_image.specs.declared.image.ImageInfo.{ImageInfo};

/// Bytes have at most one image.
pub fn targa_files_mean_one_image()
    ensures { (bytes : List ℕ) (x y : Image) → TargaMeans bytes x → TargaMeans bytes y → x ≡ y }
{}

/// Bytes have at most one first fault, at one place.
pub fn targa_files_show_one_fault()
    ensures { (bytes : List ℕ) → AtMostOneFault (IsTargaFault bytes) }
{}

/// Bytes have an image or a fault, and never both.
pub fn targa_files_are_whole_or_faulty()
    ensures one_of_them { (bytes : List ℕ) → HasTarga bytes ⊎ HasTargaFault bytes }
    ensures never_both { (bytes : List ℕ) → HasTarga bytes → HasTargaFault bytes → ⊥ }
{}

/// Bytes no prefix of which has an image or a fault are fewer than 2^31: 273 before the pixels, and at most two for each
/// byte of them.
pub fn open_targa_files_are_short()
    ensures { (bytes : List ℕ) → All (λ b. b < 256) bytes → IsOpenTarga bytes → length bytes < 2147483648 }
{}

/// The text of an image's rows, as a Targa file, has that image, and no other.
pub fn targa_texts_have_their_image()
    ensures is { (info : ImageInfo) (rows : List (List ℕ)) → AreRowsOf info rows → TargaMeans (targa_text info rows) (image_of_rows info rows) }
    ensures only { (info : ImageInfo) (rows : List (List ℕ)) (image : Image) → AreRowsOf info rows → TargaMeans (targa_text info rows) image → image ≡ image_of_rows info rows }
{}
