//! Laws on images encoded: they can be written, and their files mean them (T.81, B.2.1, F.1.2).
ghost use Rattle.std.specs.Prelude.{◌≡◌, None};
ghost use Rattle.jpg_spec.specs.Segments.{standard_limits};
ghost use Rattle.jpg_spec.specs.FileMeaning.{Means};
ghost use Rattle.jpg_spec_write.specs.WrittenFile.{IsHeaded};
ghost use Rattle.jpg_spec_write.specs.Laws.{AreOwn};
ghost use Rattle.jpg_spec_encode.specs.Encoded.{Encoding, encoded, encoded_text, sampling_fault, encode_fault};
ghost use Rattle.jpg_spec_image.specs.Images.{Image};
ghost use Rattle.jpg_spec_encode.specs.EncodingLaws.{IsEncodable};

/// So the picture of any image may be written, unless its factors and grids are refused.
pub fn encoded_images_may_be_written()
    ensures { (e : Encoding) (image : Image) → IsEncodable e image → sampling_fault e image ≡ None → IsHeaded standard_limits (encoded e image) }
{}

/// The default scans of an encoded image have no fault. In these, and in given ones without a fault, its file means its
/// picture.
pub fn encoded_images_mean_their_picture()
    ensures own { (e : Encoding) (image : Image) → IsEncodable e image → sampling_fault e image ≡ None → AreOwn e.scans → encode_fault e image ≡ None }
    ensures means { (e : Encoding) (image : Image) → IsEncodable e image → encode_fault e image ≡ None → Means standard_limits (encoded_text e image) (encoded e image) }
{}
