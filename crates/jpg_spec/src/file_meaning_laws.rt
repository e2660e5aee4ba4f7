//! Laws over files: their bytes have no fault yet, one fault or one meaning, and never two of these (T.81, B.2.1,
//! Annexes F and G).
ghost use Rattle.std.specs.Prelude.{◌≡◌, ◌≤◌, ◌+◌, ◌++◌, [], ℕ, ℤ, Bool, true, List, length, take};
ghost use Rattle.jpg_spec.specs.Lists.{chunks, is_distinct};
ghost use Rattle.jpg_spec.specs.Segments.{ScanHead, head_components};
ghost use Rattle.jpg_spec.specs.Geometry.{Frame, bounds, units};
ghost use Rattle.jpg_spec.specs.FrameHeader.{IsFrame};
ghost use Rattle.jpg_spec.specs.ScanContents.{IsHead};
ghost use Rattle.jpg_spec.specs.Elements.{Coding, UnitLeft};
ghost use Rattle.jpg_spec.specs.Scan.{Blocks, Scan, ScanMeans};
ghost use Rattle.jpg_spec.specs.InForce.{huffman_in_force};
ghost use Rattle.jpg_spec.specs.ScanFaults.{DataReveals};
ghost use Rattle.jpg_spec.specs.Meaning.{Meaning, picture_frame};
ghost use Rattle.jpg_spec.specs.Ranges.{AreInRange};
ghost use Rattle.jpg_spec.specs.Sound.{IsSound, AreTables};
ghost use Rattle.jpg_spec.specs.Markers.{Segment};
ghost use Rattle.jpg_spec.specs.Items.{Item};
ghost use Rattle.jpg_spec.specs.FileMeaning.{Leads, Means, scan_after};
ghost use Rattle.jpg_spec.specs.FirstFault.{Reveals, HasMeaning, HaveBegun, IsEarly, IsFirstFault};
ghost use Rattle.jpg_spec.specs.UnfinishedFile.{UnfinishedFile, IsWholeFile};
ghost use Rattle.jpg_spec.specs.Early.{MeansEarly, IsMeaning};
ghost use Rattle.jpg_spec.specs.Parts.{AreUnderWay, HoldsNoInterval, RevealsNoFault, StandsInOneWay, CountsAll};
ghost use Rattle.jpg_spec.specs.PictureInWork.{IsFirstPass, AreDistinct, IntervalRead, UnitsRead, ScanSoFar};
ghost use Rattle.jpg_spec.specs.Laws.{NothingRevealed, LastReveals, StandsShort, IsTruncated, IsInputTooLong, AtMostOneFault, NextIntervalRead, NextUnitRead, AllUnitsRead, ScanBegun, begun_scan, IsSequentialAfter, IsNewUnit, IsZeroBand, bounds_after};
ghost use Rattle.jpg_spec.specs.declared.fault.Fault.{Fault};
ghost use Rattle.jpg_spec.specs.declared.frame.Limits.{Limits};
ghost use Rattle.jpg_spec.specs.declared.frame.Place.{Place};

/// A file has at most one meaning, and the bytes after its EOI don't matter (T.81, B.2.1).
pub fn files_mean_one_thing()
    ensures one { (limits : Limits) (bytes : List ℕ) (M N : Meaning) → Means limits bytes M → Means limits bytes N → M ≡ N }
    ensures more { (limits : Limits) (bytes more : List ℕ) (M : Meaning) → Means limits bytes M → Means limits (bytes ++ more) M }
    ensures front { (limits : Limits) (bytes more : List ℕ) (M N : Meaning) → IsWholeFile limits bytes M → Means limits (bytes ++ more) N → M ≡ N }
    ensures place { (limits : Limits) (bytes more : List ℕ) (M N : Meaning) → IsWholeFile limits bytes M → IsWholeFile limits (bytes ++ more) N → more ≡ [] }
{}

/// What bytes mean, as a complete file or as one that ends early, is one thing; and they are never both (T.81, B.2.1).
pub fn early_files_mean_one_thing()
    ensures one { (limits : Limits) (bytes : List ℕ) (M N : Meaning) → IsMeaning limits bytes M → IsMeaning limits bytes N → M ≡ N }
    ensures never_both { (limits : Limits) (bytes : List ℕ) (M N : Meaning) → Means limits bytes M → MeansEarly limits bytes N → ⊥ }
{}

/// Whatever segments a file has, the Huffman tables in force are valid, and so is the coding of each scan by them
/// (T.81, B.2.4.2 and Annex C).
pub fn tables_in_force_are_valid()
    ensures tables { (before : List Segment) → AreTables (huffman_in_force before) }
    ensures codings { (limits : Limits) (before : List Segment) (contents : List ℕ) → IsSound (scan_after limits before contents).coding }
{}

/// The items of a file lead to one picture (T.81, F.2 and G.2).
pub fn items_lead_to_one_picture()
    ensures { (limits : Limits) (items : List Item) (blocks others : Blocks) → Leads limits items blocks → Leads limits items others → blocks ≡ others }
{}

/// While the bytes so far are faultless but incomplete, no prefix of them has a fault or is a complete file; no prefix
/// of a file with a meaning has a fault; and after a complete file there is none.
pub fn files_come_to_one_thing()
    ensures shown_or_standing { (limits : Limits) (front rest : List ℕ) (fault : Fault) → Reveals limits fault front → UnfinishedFile limits (front ++ rest) → ⊥ }
    ensures whole_or_standing { (limits : Limits) (front rest : List ℕ) (M : Meaning) → IsWholeFile limits front M → UnfinishedFile limits (front ++ rest) → ⊥ }
    ensures shown_or_whole { (limits : Limits) (front rest : List ℕ) (fault : Fault) → Reveals limits fault front → HasMeaning limits (front ++ rest) → ⊥ }
    ensures whole_or_shown { (limits : Limits) (bytes more : List ℕ) (M : Meaning) → IsWholeFile limits bytes M → NothingRevealed limits (bytes ++ more) }
{}

/// The last byte of some bytes reveals at most one fault, or the bytes before it do.
pub fn files_show_one_fault()
    ensures { (limits : Limits) (bytes : List ℕ) (f g : Fault) → Reveals limits f bytes → Reveals limits g bytes → f ≡ g }
{}

/// A fault that one more byte after faultless bytes reveals is the file's first, at this byte, whatever follows.
pub fn faults_after_standing_bytes_are_first()
    ensures { (limits : Limits) (bytes rest : List ℕ) (f : Fault) → LastReveals limits bytes f → IsFirstFault limits (bytes ++ rest) f (length bytes) }
{}

/// A file of fewer bytes than the input's limit that is faultless but incomplete is truncated, at its end, if some
/// component hasn't begun. Otherwise it ends early (T.81, B.2.3).
pub fn standing_files_are_truncated()
    ensures truncated { (limits : Limits) (bytes : List ℕ) → StandsShort limits bytes → (HaveBegun limits bytes → ⊥) → IsTruncated limits bytes }
    ensures early { (limits : Limits) (bytes : List ℕ) → StandsShort limits bytes → HaveBegun limits bytes → IsEarly limits bytes }
{}

/// A file that is faultless but incomplete at the input's limit is too long, at the limit.
pub fn files_beyond_the_limit_are_too_long()
    ensures { (limits : Limits) (bytes : List ℕ) → UnfinishedFile limits (take limits.input bytes) → limits.input ≤ length bytes → IsInputTooLong limits bytes }
{}

/// A file never has both a meaning and a first fault, also if it ends early, and it has at most one first fault, at one
/// place.
pub fn first_faults_are_one()
    ensures never_both { (limits : Limits) (bytes : List ℕ) (fault : Fault) (n : ℕ) → HasMeaning limits bytes → IsFirstFault limits bytes fault n → ⊥ }
    ensures early { (limits : Limits) (bytes : List ℕ) (fault : Fault) (n : ℕ) → IsEarly limits bytes → IsFirstFault limits bytes fault n → ⊥ }
    ensures one { (limits : Limits) (bytes : List ℕ) → AtMostOneFault (IsFirstFault limits bytes) }
{}

/// Data have at most one fault.
pub fn data_show_one_fault()
    ensures { (c : Coding) (units : List UnitLeft) (f g : Fault) (bits : List Bool) → IsSound c → DataReveals c units f bits → DataReveals c units g bits → f ≡ g }
{}

/// Complete elements and a part of one more are no complete interval and have no fault, nor have any first bits of them
/// (T.81, F.2.2 and G.1.2).
pub fn parts_leave_units_due()
    ensures held { (c : Coding) (units : List UnitLeft) (bits : List Bool) → IsSound c → AreUnderWay c units bits → HoldsNoInterval c units bits }
    ensures shown { (c : Coding) (units : List UnitLeft) (bits : List Bool) → IsSound c → AreUnderWay c units bits → RevealsNoFault c units bits }
{}

/// They encode one list of values and leave one list of units, which together are all values of the units.
pub fn parts_stand_in_one_way()
    ensures one { (c : Coding) (units : List UnitLeft) (bits : List Bool) → IsSound c → StandsInOneWay c units bits }
    ensures all { (c : Coding) (units : List UnitLeft) (bits : List Bool) → CountsAll c units bits }
{}

/// No block is at two places of a scan (T.81, A.2).
pub fn scans_take_each_block_once()
    ensures { (f : Frame) (parts : List ℕ) → is_distinct parts ≡ true → AreDistinct (units f parts) }
{}

/// A scan that a frame admits has places (T.81, A.2, B.2.2 and B.2.3).
pub fn scans_have_places()
    ensures { (f : Frame) (head : ScanHead) → IsFrame f → IsHead f head → 1 ≤ length (units f (head_components head)) }
{}

/// The current picture begins as the one before the scan, takes interval by interval what their bits encode, and is
/// what the scan means when none is left (T.81, E.1.4).
pub fn pictures_in_work_become_scans()
    ensures first { (s : Scan) (before : Blocks) → ((i x y : ℕ) → length (before i x y) ≡ 64) → ScanSoFar s before before [] (chunks s.interval s.places) }
    ensures next { (s : Scan) (before new : Blocks) (done : List (List ℕ)) (w : NextIntervalRead s before new done) → ScanSoFar s before new done w.left }
    ensures last { (s : Scan) (before work : Blocks) (intervals : List (List ℕ)) → ScanSoFar s before work intervals [] → ScanMeans s intervals before work }
{}

/// An interval is read unit by unit: the values of each are put at its place, and the places before it don't change
/// (T.81, A.2).
pub fn intervals_are_read_unit_by_unit()
    ensures first { (s : Scan) (old : Blocks) → ((i x y : ℕ) → length (old i x y) ≡ 64) → UnitsRead s [] old old [] }
    ensures next { (s : Scan) (places : List Place) (old new : Blocks) (told : List ℤ) → NextUnitRead s places old new told → UnitsRead s places old new told }
    ensures last { (s : Scan) (places : List Place) (old new : Blocks) (w : AllUnitsRead s places old new) → IntervalRead s places old new w.bits }
{}

/// What no scan has sent yet is zero: the units of a sequential scan, and the band of a progressive scan's first pass
/// (T.81, F.1.2 and G.1.1.1).
pub fn scans_find_zeros()
    ensures sequential { (limits : Limits) (b : ScanBegun limits) → IsSequentialAfter limits b.items → IsNewUnit (begun_scan limits b) b.blocks b.place }
    ensures first { (limits : Limits) (b : ScanBegun limits) → IsFirstPass limits b.items b.contents → IsZeroBand (begun_scan limits b) b.blocks b.place }
{}

/// The coefficients of a file are in the range of its frame, after every scan and in its meaning (T.81, F.1.2 and
/// G.1.2).
pub fn coefficients_lie_in_their_range()
    ensures items { (limits : Limits) (items : List Item) (blocks : Blocks) → Leads limits items blocks → AreInRange (bounds_after limits items) blocks }
    ensures meaning { (limits : Limits) (bytes : List ℕ) (M : Meaning) → Means limits bytes M → AreInRange (bounds (picture_frame M)) M.blocks }
    ensures early { (limits : Limits) (bytes : List ℕ) (M : Meaning) → MeansEarly limits bytes M → AreInRange (bounds (picture_frame M)) M.blocks }
{}

/// The blocks of each file's picture have 64 numbers.
pub fn blocks_of_files_are_whole()
    ensures { (limits : Limits) (bytes : List ℕ) (M : Meaning) (i x y : ℕ) → IsMeaning limits bytes M → length (M.blocks i x y) ≡ 64 }
{}
