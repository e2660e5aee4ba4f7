//! Laws on images encoded: they can be written, and their files mean them (T.81, B.2.1, F.1.2).
ghost use Rattle.std.specs.Prelude.{◌≡◌, None};
ghost use Rattle.jpg_spec_encode.specs.Encoded.{Encoding, encoded, encoded_text, sampling_fault, encode_fault};
ghost use Rattle.jpg_spec_image.specs.Images.{Image};
ghost use Rattle.jpg_spec_move.specs.Moved.{moved, moved_text, picture_fault};
ghost use Rattle.jpg_spec_words.specs.EncodedKept.{as_encoded};

/// If nothing is transformed and no marker passed on, an encoded image doesn't change: the text of the transformed
/// picture is its text, and the faults of such a picture are those of its script.
pub fn encoded_images_stay_as_they_are()
    ensures same { (e : Encoding) (image : Image) → moved (as_encoded e) (encoded e image) ≡ encoded e image }
    ensures text { (e : Encoding) (image : Image) → moved_text (as_encoded e) (encoded e image) ≡ encoded_text e image }
    ensures fault { (e : Encoding) (image : Image) → sampling_fault e image ≡ None → picture_fault (as_encoded e) (encoded e image) ≡ encode_fault e image }
{}
