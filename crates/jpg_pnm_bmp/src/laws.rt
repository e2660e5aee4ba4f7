//! Laws over what an image writer's calls append, and over images that are read, on functions that do nothing.
ghost use Rattle.std.specs.Prelude.{◌≡◌, List, ℕ, Ok, length};
ghost use Rattle.jpg_spec_image.specs.declared.image.EndKind.{EndKind};
ghost use Rattle.jpg_spec_image.specs.declared.image.ImageInfo.{ImageInfo};
ghost use Rattle.jpg_spec_image.specs.Images.{Image as ImageRead};
ghost use Rattle.jpg_spec_image.specs.ImageFaults.{IsImage, IsOpenImage};
ghost use Rattle.jpg_spec.specs.declared.frame.Limits.{Limits};
ghost use Rattle.jpg_pnm_bmp.specs.PixelsRead.{HasFedImage, pixels_taken};
ghost use Rattle.jpg_pnm_bmp.specs.PlainSamples.{AreRightNumbers, GoesOnPlain, HasFedSamples};
ghost use Rattle.jpg_pnm_bmp.specs.PnmGiven.{HasGivenSamples, given_info, given_taken};
ghost use Rattle.jpg_pnm_bmp.specs.declared.read.pixels.PixelReader.{PixelReader};
ghost use Rattle.jpg_pnm_bmp.specs.declared.read.pnm_given.PnmSamples.{PnmSamples};
ghost use Rattle.jpg_pnm_bmp.specs.Made.{AreBytes, IsRightImage};
ghost use Rattle.jpg_pnm_bmp.specs.EndState.{EndState, new_end, CanTakeRow, CanFinish, Starts, Finishes};
ghost use Rattle.jpg_pnm_bmp.specs.Written.{WrittenImage, Wrote, Took, PartsGoOn, begun, with_next, whole_text};
ghost use Rattle.jpg_pnm_bmp.specs.declared.write.end.Finish.TheVariants as finish;

/// What `start`, `row` for each row, and `finish` until `Done` append, one after another, is the image's complete text
/// in the writer's format, for any writer. While `finish` returns `More` it may be called again, and fewer parts are
/// left.
pub fn images_are_written_whole()
    ensures start { (k : EndKind) (i : ImageInfo) (s t : List ℕ) (e : EndState) → Starts (new_end k) s i (Ok tt) e t → Wrote e (begun i s) t }
    ensures row { (i : WrittenImage) (r s t : List ℕ) (e n : EndState) → Wrote e i s → CanTakeRow e r → Took e s r n t → Wrote n (with_next i r) t }
    ensures part { (i : WrittenImage) (s t : List ℕ) (e n : EndState) → Wrote e i s → Finishes e s (Ok finish.More) n t → Wrote n i t }
    ensures more { (s t : List ℕ) (e n : EndState) → CanFinish e → Finishes e s (Ok finish.More) n t → PartsGoOn e n }
    ensures done { (i : WrittenImage) (s t : List ℕ) (e n : EndState) → Wrote e i s → Finishes e s (Ok finish.Done) n t → t ≡ whole_text e.kind i }
{}

/// The bytes that were fed to a reader that isn't done are as many as it took; no prefix of them is a complete image or
/// has a fault.
pub fn fed_bytes_are_open()
    ensures taken { (bytes : List ℕ) (r : PixelReader) → HasFedImage bytes r → pixels_taken r ≡ length bytes }
    ensures open { (bytes : List ℕ) (r : PixelReader) → HasFedImage bytes r → IsOpenImage bytes }
{}

/// The bytes that were fed to a reader of samples are as many as it took, and no prefix of them is a complete image or has a
/// fault; the numbers of its image are within bounds.
pub fn given_samples_go_on()
    ensures taken { (bytes given : List ℕ) (r : PnmSamples) → HasGivenSamples bytes given r → given_taken r ≡ length bytes }
    ensures open { (bytes given : List ℕ) (r : PnmSamples) → HasGivenSamples bytes given r → IsOpenImage bytes }
    ensures numbers { (bytes given : List ℕ) (r : PnmSamples) → HasGivenSamples bytes given r → AreRightNumbers (given_info r) }
{}

/// The sides of an image in a file of bytes are from 1 to 65500, its pixels no more than 268,435,456, and its samples
/// as many as its sides say, each a byte.
pub fn images_are_right()
    ensures { (limits : Limits) (bytes : List ℕ) (image : ImageRead) → IsImage limits bytes image → AreBytes bytes → IsRightImage image }
{}

/// Of a P5 or P6 file whose greatest value is 255 (`PixelReader::plain`) each further byte is a sample: with the last
/// one the file is complete, whatever follows it, before that no prefix is, and where the bytes end the file is too
/// short.
pub fn plain_samples_are_read()
    ensures { (info : ImageInfo) (bytes given : List ℕ) → HasFedSamples info bytes given → GoesOnPlain info bytes given }
{}
