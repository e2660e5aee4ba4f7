//! Laws over Targa files that are read, on functions that do nothing.
ghost use Rattle.std.specs.Prelude.{◌≡◌, ◌<◌, List, ℕ, length};
ghost use Rattle.jpg_spec_image.specs.Images.{Image as ImageRead};
ghost use Rattle.jpg_spec_image.specs.TargaFaults.{TargaMeans, IsOpenTarga};
ghost use Rattle.jpg_pnm_bmp.specs.Made.{AreBytes, IsRightImage};
ghost use Rattle.jpg_targa.specs.TargaGiven.{HasGivenSamples, IsBegunTarga, GoesOnTarga, given_taken};
ghost use Rattle.jpg_targa.specs.TargaRead.{HasFedTarga, targa_taken};
ghost use Rattle.jpg_targa.specs.declared.read.given.TargaSamples.{TargaSamples};
ghost use Rattle.jpg_spec_image.specs.declared.image.ImageInfo.{ImageInfo};
ghost use Rattle.jpg_targa.specs.declared.read.reader.TargaReader.{TargaReader};

/// The bytes that were fed to a reader that isn't done are as many as it took, and fewer than 2^31; no prefix of them is
/// a complete image or has a fault.
pub fn fed_targas_are_open()
    ensures taken { (bytes : List ℕ) (r : TargaReader) → HasFedTarga bytes r → targa_taken r ≡ length bytes }
    ensures short { (bytes : List ℕ) (r : TargaReader) → HasFedTarga bytes r → length bytes < 2147483648 }
    ensures open { (bytes : List ℕ) (r : TargaReader) → HasFedTarga bytes r → IsOpenTarga bytes }
{}

/// Where a file whose samples are given has begun, its numbers stay, are those of the image, and are within bounds. The
/// bytes that were fed to a reader of samples are as many as it took, fewer than 2^31, and no prefix of them is a complete
/// image or has a fault.
pub fn given_targas_go_on()
    ensures numbers { (info : ImageInfo) (bytes : List ℕ) → IsBegunTarga info bytes → GoesOnTarga info bytes }
    ensures taken { (bytes given : List ℕ) (r : TargaSamples) → HasGivenSamples bytes given r → given_taken r ≡ length bytes }
    ensures short { (bytes given : List ℕ) (r : TargaSamples) → HasGivenSamples bytes given r → AreBytes bytes → length bytes < 2147483648 }
    ensures open { (bytes given : List ℕ) (r : TargaSamples) → HasGivenSamples bytes given r → IsOpenTarga bytes }
{}

/// The sides of an image in a file of bytes are from 1 to 65500, its pixels no more than 268,435,456, and its samples
/// as many as its sides say, each a byte.
pub fn targas_are_right()
    ensures { (bytes : List ℕ) (image : ImageRead) → TargaMeans bytes image → AreBytes bytes → IsRightImage image }
{}
