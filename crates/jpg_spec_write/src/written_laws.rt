//! Laws over written files: they mean their picture (T.81, B.2.1, F.1.2).
ghost use Rattle.std.specs.Prelude.{ℕ, ◌^◌, ◌<◌, List, length};
ghost use Rattle.jpg_spec.specs.FrameHeader.{AreLimits};
ghost use Rattle.jpg_spec.specs.Segments.{standard_limits};
ghost use Rattle.jpg_spec.specs.Meaning.{Meaning};
ghost use Rattle.jpg_spec.specs.FileMeaning.{Means};
ghost use Rattle.jpg_spec_write.specs.Headed.{headed_by};
ghost use Rattle.jpg_spec_write.specs.WrittenFile.{IsHeaded};
ghost use Rattle.jpg_spec_write.specs.Laws.{HasSequentialScript, IsSequentialText, IsOwnText, IsProgressiveText, Fits};
ghost use Rattle.jpg_spec.specs.declared.frame.Copying.{Copying};
ghost use Rattle.jpg_spec.specs.declared.frame.Limits.{Limits};

/// What is written of a meaning in a sequential script, with restarts or without, means it; and so in the script of one
/// scan of all components, or of one scan for each (T.81, B.2.1 and F.1.2).
pub fn sequential_files_mean_their_picture()
    ensures scripts { (limits : Limits) (H : Meaning) (bytes : List ℕ) → IsSequentialText limits H bytes → Fits limits bytes → Means limits bytes H }
    ensures own { (limits : Limits) (H : Meaning) (bytes : List ℕ) → IsOwnText limits H bytes → Fits limits bytes → Means limits bytes H }
{}

/// What is written of a meaning in a sequential script has fewer than 2^39 bytes: a block has at most 64 values of 31
/// bits, a byte FF is stuffed, and no component has two scans. So within the standard limits it means the meaning,
/// whatever its script and restarts.
pub fn sequential_files_are_short()
    ensures short { (limits : Limits) (H : Meaning) (bytes : List ℕ) → AreLimits limits → HasSequentialScript limits H bytes → length bytes < 2 ^ 39 }
    ensures means { (H : Meaning) (bytes : List ℕ) → IsSequentialText standard_limits H bytes → Means standard_limits bytes H }
    ensures own { (H : Meaning) (bytes : List ℕ) → IsOwnText standard_limits H bytes → Means standard_limits bytes H }
{}

/// What is written of a meaning in a progressive script that its scans' history admits, with restarts or without, means
/// it (T.81, B.2.1 and G.1).
pub fn progressive_files_mean_their_picture()
    ensures { (limits : Limits) (H : Meaning) (bytes : List ℕ) → IsProgressiveText limits H bytes → Fits limits bytes → Means limits bytes H }
{}

/// Such a file has fewer than 2^39 bytes too, however many scans its script has: each scan takes what it names down by
/// a bit, of which a value has eleven, or fifteen with 12 bits per sample. So within the standard limits it means the meaning.
pub fn progressive_files_are_short()
    ensures short { (limits : Limits) (H : Meaning) (bytes : List ℕ) → AreLimits limits → IsProgressiveText limits H bytes → length bytes < 2 ^ 39 }
    ensures means { (H : Meaning) (bytes : List ℕ) → IsProgressiveText standard_limits H bytes → Means standard_limits bytes H }
{}

/// A meaning with a new header may be written if the meaning itself may (the manual of jpegtran).
pub fn headed_meanings_may_be_written()
    ensures { (limits : Limits) (copying : Copying) (M : Meaning) → IsHeaded limits M → IsHeaded limits (headed_by copying M) }
{}
