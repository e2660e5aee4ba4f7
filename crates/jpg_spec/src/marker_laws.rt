//! Laws over marker segments: bytes have at most one result, and the first bytes with a fault have one (T.81, B.1.1.2
//! to B.1.1.4).
ghost use Rattle.std.specs.Prelude.{◌≡◌, ◌++◌, ◌∷◌, ℕ, List, length};
ghost use Rattle.jpg_spec.specs.Markers.{Rule, Reached, at_eoi, at_fault, Reaches, SegmentsReveal, IsLeast};
ghost use Rattle.jpg_spec.specs.ScanReading.{LeadingMarker};
ghost use Rattle.jpg_spec.specs.Laws.{LeadingSegment, NoFrontReveals};
ghost use Rattle.jpg_spec.specs.declared.fault.Fault.{Fault};

/// Bytes begin with one marker at most, however many fill bytes FF it has (T.81, B.1.1.2 and B.1.1.3).
pub fn bytes_begin_with_one_marker()
    ensures { (bytes : List ℕ) (a b : LeadingMarker bytes) → (a.code ≡ b.code) × (a.marker ≡ b.marker) × (a.rest ≡ b.rest) }
{}

/// Bytes begin with one marker segment at most: a marker, a length, and the contents that it counts (T.81, B.1.1.4).
pub fn bytes_begin_with_one_segment()
    ensures { (bytes : List ℕ) (a b : LeadingSegment bytes) → (a.code ≡ b.code) × (a.contents ≡ b.contents) × (a.front ≡ b.front) × (a.rest ≡ b.rest) }
{}

/// With their last byte SOI and segments have at most one result, by any rule for complete segments (T.81, B.1.1.2 to
/// B.1.1.4).
pub fn segments_reach_one_thing()
    ensures { (rule : Rule) (bytes : List ℕ) (x y : Reached) → Reaches rule bytes x → Reaches rule bytes y → x ≡ y }
{}

/// After bytes with a fault nothing is reached: a fault is that of the first bytes that can reveal it (T.81, B.1.1.2 to
/// B.1.1.4).
pub fn faults_are_shown_first()
    ensures { (rule : Rule) (front rest : List ℕ) (b : ℕ) (x : Reached) (f : Fault) → Reaches rule (front ++ b ∷ rest) x → Reaches rule front (at_fault f) → ⊥ }
{}

/// After an allowed EOI nothing is reached (T.81, B.1.1.3 and Table B.1).
pub fn nothing_is_after_eoi()
    ensures { (rule : Rule) (front rest : List ℕ) (b : ℕ) (x : Reached) → Reaches rule (front ++ b ∷ rest) x → Reaches rule front at_eoi → ⊥ }
{}

/// Of bytes with a result no shorter prefix has a fault (T.81, B.1.1.2 to B.1.1.4).
pub fn fronts_show_no_fault()
    ensures { (rule : Rule) (bytes : List ℕ) (x : Reached) → Reaches rule bytes x → NoFrontReveals rule bytes }
{}

/// Bytes that reveal a fault are the shortest prefix of themselves that does, and they reveal no other (T.81, B.1.1.2
/// to B.1.1.4).
pub fn shown_faults_are_least()
    ensures { (rule : Rule) (bytes : List ℕ) (f : Fault) → SegmentsReveal rule f bytes → IsLeast (SegmentsReveal rule) bytes f (length bytes) }
{}
