//! Laws over the results of rdjpgcom and wrjpgcom: a complete file has one text and no fault, and one that has a fault
//! has one (T.81, B.1.1.2 to B.1.1.4).
ghost use Rattle.std.specs.Prelude.{◌≡◌, ℕ, Bool, List};
ghost use Rattle.jpg_spec.specs.Markers.{Segment};
ghost use Rattle.jpg_spec_write.specs.CommentText.{IsReadFault, IsHeadFault, IsInsertFault, IsInserted};
ghost use Rattle.jpg_spec.specs.declared.fault.Fault.{Fault};
ghost use Rattle.jpg_spec.specs.declared.frame.Limits.{Limits};
ghost use Rattle.jpg_spec.specs.Laws.{AtMostOneFault};
ghost use Rattle.jpg_comments.specs.Answers.{AtMostOne, AtMostOneFront, BeginsWhole, IsHeadFront, IsWholeFront};

/// Bytes that begin with a complete file, as rdjpgcom reads it, have no fault.
pub fn whole_files_have_no_fault()
    ensures { (limits : Limits) (bytes : List ℕ) (n at : ℕ) (fault : Fault) → IsWholeFront limits bytes n → IsReadFault limits bytes fault at → ⊥ }
{}

/// Bytes that begin with a head, as wrjpgcom reads it, have no fault before it.
pub fn heads_have_no_fault()
    ensures { (limits : Limits) (bytes : List ℕ) (n at : ℕ) (fault : Fault) → IsHeadFront limits bytes n → IsHeadFault limits bytes fault at → ⊥ }
{}

/// Bytes have one fault at one place for rdjpgcom, or none.
pub fn read_faults_are_one()
    ensures { (limits : Limits) (bytes : List ℕ) → AtMostOneFault (IsReadFault limits bytes) }
{}

/// Bytes have one fault at one place for wrjpgcom, or none.
pub fn insert_faults_are_one()
    ensures { (limits : Limits) (bytes : List ℕ) → AtMostOneFault (IsInsertFault limits bytes) }
{}

/// Bytes begin with at most one complete file, as rdjpgcom reads it.
pub fn whole_files_are_one()
    ensures { (limits : Limits) (bytes : List ℕ) → AtMostOneFront (BeginsWhole limits bytes) }
{}

/// A file with a comment inserted, as wrjpgcom writes it, is one.
pub fn inserted_files_are_one()
    ensures { (limits : Limits) (bytes comment : List ℕ) (replace : Bool) → AtMostOne (IsInserted limits bytes comment replace) }
{}
