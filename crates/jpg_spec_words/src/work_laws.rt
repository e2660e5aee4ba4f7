//! Laws on the work of jpgwork (T.81, A.2; the manual of jpegtran).
ghost use Rattle.std.specs.Prelude.{◌≡◌, ℕ, length, true};
ghost use Rattle.jpg_spec_words.specs.Work.{back_picture, back_text, first_picture, first_text, lines, samples_sum, turned_text, work_info, work_text};

/// A picture that was rotated and then rotated back is the first one again, in its partial iMCUs too, with the same
/// process and JFIF header. So its file is the first one, and the fourth line says so.
pub fn pictures_are_rotated_back()
    ensures picture { (n : ℕ) → back_picture n ≡ first_picture n }
    ensures same { (n : ℕ) → back_text n ≡ first_text n }
    ensures lines { (n : ℕ) → work_text n ≡ lines (work_info n) (length (first_text n)) (length (turned_text n)) true (samples_sum (first_picture n)) }
{}
