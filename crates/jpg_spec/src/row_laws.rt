//! Laws on the MCU rows of a first scan of all components that the bytes of a file encode (T.81, A.2.3, E.1.4, F.2.2).
ghost use Rattle.std.specs.Prelude.{◌≡◌, ◌≤◌, ◌+◌, ◌++◌, ℕ, List, Some, Ok};
ghost use Rattle.jpg_spec.specs.Scan.{Blocks};
ghost use Rattle.jpg_spec.specs.Segments.{ScanHead};
ghost use Rattle.jpg_spec.specs.Meaning.{Meaning};
ghost use Rattle.jpg_spec.specs.ScanContents.{scan_header};
ghost use Rattle.jpg_spec.specs.Items.{Item, segments_of, contents_rule};
ghost use Rattle.jpg_spec.specs.Markers.{Segment};
ghost use Rattle.jpg_spec.specs.ScanReading.{ScanPlace, scan_at};
ghost use Rattle.jpg_spec.specs.Lists.{joined};
ghost use Rattle.jpg_spec.specs.RowsParsed.{TellsRows, CompletesRows, TellsBlocks, BeginsScanOfAll};
ghost use Rattle.jpg_spec.specs.Laws.{frame_of_items};
ghost use Rattle.jpg_spec.specs.RowLaws.{TellsMore, first_blocks, HasScanOfAll, ReadsUnits, ReadsInterval, StopsInRows, stopped_blocks, ReadsAtLeast, ReadsUnitsOfRows, ReadsWholeRows, blocks_read, EndsEarlyByRows, EndsEarlyInRows, complete_rows, early_rows, early_so_far};
ghost use Rattle.jpg_spec.specs.declared.fault.Fault.TheVariants.{RepeatedScan};
ghost use Rattle.jpg_spec.specs.declared.frame.Limits.{Limits};

/// Bytes encode the blocks of a number of MCU rows in one way.
pub fn rows_are_told_in_one_way()
    ensures { (limits : Limits) (bytes : List ℕ) (rows : ℕ) (x y : Blocks) → TellsRows limits bytes rows x → TellsRows limits bytes rows y → x ≡ y }
{}

/// What is decoded remains, whatever follows, and with more MCU rows fewer are decoded too, with the same blocks.
pub fn told_rows_stay_told()
    ensures more { (limits : Limits) (a b : List ℕ) (rows : ℕ) (x : Blocks) → TellsRows limits a rows x → TellsRows limits (a ++ b) rows x }
    ensures fewer { (limits : Limits) (bytes : List ℕ) (n : ℕ) (w : TellsMore limits bytes n) → TellsRows limits bytes n (first_blocks limits bytes n w) }
{}

/// Bytes complete one number of MCU rows, with one list of blocks, and encode no more.
pub fn rows_are_completed_in_one_way()
    ensures one { (limits : Limits) (bytes : List ℕ) (m n : ℕ) (x y : Blocks)
        → CompletesRows limits bytes m x → CompletesRows limits bytes n y → (m ≡ n) × (x ≡ y) }
    ensures most { (limits : Limits) (bytes : List ℕ) (m n : ℕ) (x y : Blocks)
        → TellsRows limits bytes m x → CompletesRows limits bytes n y → m ≤ n }
{}

/// The current picture has its blocks: those of units of the current interval, or of all its units, and of the
/// intervals done (T.81, A.2 and E.1.4).
pub fn pictures_in_work_tell_their_blocks()
    ensures units { (limits : Limits) (p : ScanPlace) (now : Blocks) (w : ReadsUnits limits p now)
        → TellsBlocks (scan_at limits p) p.done p.coded (joined w.so_far.front ++ w.part) now }
    ensures interval { (limits : Limits) (p : ScanPlace) (now : Blocks) (w : ReadsInterval limits p now)
        → TellsBlocks (scan_at limits p) p.done p.coded (joined w.so_far.front) now }
{}

/// Bytes that stop in the data of such a scan, also with a fault there, complete the MCU rows that they encode (T.81,
/// B.1.1.5 and F.2.2).
pub fn bytes_that_stop_complete_rows()
    ensures { (limits : Limits) (bytes : List ℕ) (rows : ℕ) (w : StopsInRows limits bytes rows)
        → CompletesRows limits bytes rows (stopped_blocks limits bytes rows w) }
{}

/// A reader inside such a scan decodes the MCU rows whose units it read, and completes them if the next unit has begun,
/// or if the current interval is complete (T.81, E.1.4 and F.2.2).
pub fn readers_complete_the_rows_they_read()
    ensures told { (limits : Limits) (bytes : List ℕ) (rows : ℕ) (w : ReadsAtLeast limits bytes rows)
        → TellsRows limits bytes rows (blocks_read limits w.place rows w.now) }
    ensures rows { (limits : Limits) (bytes : List ℕ) (rows : ℕ) (w : ReadsUnitsOfRows limits bytes rows)
        → CompletesRows limits bytes rows (blocks_read limits w.place rows w.now) }
    ensures whole { (limits : Limits) (bytes : List ℕ) (rows : ℕ) (w : ReadsWholeRows limits bytes rows)
        → CompletesRows limits bytes rows (blocks_read limits w.place rows w.now) }
{}

/// A scan after one of all components of a sequential frame is refused (T.81, B.2.3).
pub fn scans_of_all_are_alone()
    ensures { (limits : Limits) (items : List Item) (contents : List ℕ) (head : ScanHead) → HasScanOfAll limits items
        → scan_header (frame_of_items limits items) contents ≡ Ok head → contents_rule limits (segments_of items) 0xda contents ≡ Some RepeatedScan }
{}

/// MCU rows that are decoded are of the scan that the file's header begins, and a file begins one such scan (T.81,
/// B.2.1).
pub fn rows_follow_their_header()
    ensures begins { (limits : Limits) (bytes : List ℕ) (rows : ℕ) (x : Blocks) (w : TellsRows limits bytes rows x)
        → BeginsScanOfAll limits bytes (segments_of w.place.items) w.place.contents }
    ensures once { (limits : Limits) (bytes : List ℕ) (a b : List Segment) (x y : List ℕ)
        → BeginsScanOfAll limits bytes a x → BeginsScanOfAll limits bytes b y → (a ≡ b) × (x ≡ y) }
{}

/// The picture of a file that ends early in such a scan, or after it, is that of its blocks at the end of the scan
/// header, except for markers that are kept after it (T.81, B.2.1, B.2.3).
pub fn early_pictures_follow_their_scan_header()
    ensures { (limits : Limits) (bytes : List ℕ) (M : Meaning) (w : EndsEarlyByRows limits bytes M)
        → early_so_far limits bytes M w ≡ record M { kept = (early_so_far limits bytes M w).kept } }
{}

/// A file that ends early in such a scan, or after it, has the blocks of the MCU rows that its bytes complete. After
/// the next row it has none: of that row it has the units that are complete (T.81, A.2.3, E.1.4, F.2.2).
pub fn early_files_have_the_rows_they_complete()
    ensures complete { (limits : Limits) (bytes : List ℕ) (M : Meaning) (rows : ℕ) (w : EndsEarlyInRows limits bytes M rows)
        → early_rows limits bytes M rows w rows ≡ complete_rows limits bytes M rows w }
    ensures none { (limits : Limits) (bytes : List ℕ) (M : Meaning) (rows : ℕ) (w : EndsEarlyInRows limits bytes M rows)
        → early_rows limits bytes M rows w (rows + 1) ≡ M.blocks }
{}
