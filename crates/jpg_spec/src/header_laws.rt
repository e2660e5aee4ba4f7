//! Laws over the header of a file: it has at most one result, and that is the one of the complete file (T.81, B.2.1).
ghost use Rattle.std.specs.Prelude.{◌≡◌, ◌<◌, ◌≤◌, ℕ, List, length, take};
ghost use Rattle.jpg_spec.specs.FirstFault.{IsFirstFault};
ghost use Rattle.jpg_spec.specs.Header.{UnfinishedHeader};
ghost use Rattle.jpg_spec.specs.Laws.{HeaderIsFaulty, LeadingHeader, HeaderRevealsAt, AtMostOneFault, IsTruncated, IsInputTooLong};
ghost use Rattle.jpg_spec.specs.declared.fault.Fault.{Fault};
ghost use Rattle.jpg_spec.specs.declared.frame.Limits.{Limits};

/// The header of a file has a fault, or is complete, or ends with the bytes: never two of these (T.81, B.2.1).
pub fn headers_come_to_one_thing()
    ensures shown_or_standing { (limits : Limits) (bytes : List ℕ) → HeaderIsFaulty limits bytes → UnfinishedHeader limits bytes → ⊥ }
    ensures shown_or_whole { (limits : Limits) (bytes : List ℕ) → HeaderIsFaulty limits bytes → LeadingHeader limits bytes → ⊥ }
    ensures whole_or_standing { (limits : Limits) (bytes : List ℕ) → LeadingHeader limits bytes → UnfinishedHeader limits bytes → ⊥ }
{}

/// Bytes begin with at most one complete header, of one list of segments and one scan header (T.81, B.2.1 and B.2.3).
pub fn bytes_begin_with_one_header()
    ensures { (limits : Limits) (bytes : List ℕ) (a b : LeadingHeader limits bytes) → (a.front ≡ b.front) × (a.before ≡ b.before) × (a.contents ≡ b.contents) }
{}

/// The header of a file has at most one fault, at one place (T.81, B.2.1).
pub fn headers_show_one_fault()
    ensures { (limits : Limits) (bytes : List ℕ) → AtMostOneFault (HeaderRevealsAt limits bytes) }
{}

/// The fault of a header that byte n reveals, within the input's limit, is the first fault of the complete file: fewer
/// bytes reveal none, and this byte no other one, whatever follows (T.81, B.2.1).
pub fn header_faults_are_first_faults()
    ensures { (limits : Limits) (bytes : List ℕ) (f : Fault) (n : ℕ) → HeaderRevealsAt limits bytes f n → n ≤ limits.input → IsFirstFault limits bytes f n }
{}

/// A file of fewer bytes than the input's limit that ends in its header is truncated, at its end (T.81, B.2.1).
pub fn unfinished_headers_are_truncated()
    ensures { (limits : Limits) (bytes : List ℕ) → length bytes < limits.input → UnfinishedHeader limits bytes → IsTruncated limits bytes }
{}

/// A file whose header isn't complete within the input's limit is too long, at the limit (T.81, B.2.1).
pub fn headers_beyond_the_limit_are_too_long()
    ensures { (limits : Limits) (bytes : List ℕ) → limits.input ≤ length bytes → UnfinishedHeader limits (take limits.input bytes) → IsInputTooLong limits bytes }
{}
