//! Laws over what a run does, each on a function that does nothing.
ghost use Rattle.std.specs.Prelude.{◌≡◌, ℕ, Bool, List};
ghost use Rattle.jpg_base.specs.Desk.{DeskState};
ghost use Rattle.jpg_base.specs.declared.names.Name.{Name};
ghost use Rattle.jpg_spec.specs.Meaning.{Meaning};
ghost use Rattle.jpg_spec_move.specs.declared.transform.Transform.{Transform};
ghost use Rattle.jpg_spec.specs.declared.fault.FaultAt.{FaultAt};
ghost use Rattle.jpg_spec_words.specs.declared.answers.Why.TheVariants as why;
ghost use Rattle.jpg_spec_write.specs.declared.picture_fault.PictureFault.{PictureFault};
ghost use Rattle.jpg_cli.specs.Due.{IsAnswerDue, IsDueOrNoMemory, IsEncodeDue, IsFrontDue, IsShowDue, TellsFiles};
ghost use Rattle.jpg_cli.specs.Tools.Turned.{Transformed};
ghost use Rattle.jpg_spec_words.specs.EncodeWords.{EncodeAsked};
ghost use Rattle.jpg_spec_words.specs.TransformWords.{TransformAsked};
ghost use Rattle.jpg_spec_words.specs.declared.answers.Why.{Why};
ghost use Rattle.jpg_cli.specs.Tools.ImageEncoded.{EncodedAsAsked};
ghost use Rattle.jpg_cli.specs.Tools.ReadComments.{IsPrintDue, Printed};
ghost use Rattle.jpg_cli.specs.Tools.CommentInserted.{Inserted, IsInsertDue, Task};
ghost use Rattle.jpg_desk.specs.ReadFront.{IsFrontRefused};
ghost use Rattle.jpg_desk.specs.ReadPicture.{IsRefusedFor, Wanted, Coefficients, Image};
ghost use Rattle.jpg_cli.specs.Tools.FrontShown.{FrontShown};
ghost use Rattle.jpg_cli.specs.Tools.Showing.{Showing, Shown};
ghost use Rattle.jpg_cli.specs.KeepingLaws.{MissNothing};
ghost use Rattle.jpg_cli.specs.Laws.{AnswersOrNoMemory, MeanSame, MeanShown, WasRefused, WasRefusedShown, WasTurnedBack, WhateverRose, WhereNoneRose, text_back};
ghost use Rattle.jpg_cli.specs.Certain.{HasFaultyFront, HasFaultyImage, HasFaultyInput, HasFaultyPicture, HasFaultyScript};
ghost use Rattle.jpg_cli.specs.Certain.{HasFile, HasFrameHeader, HasImage, HasPicture, HasShownFront, HasWholeFile};
ghost use Rattle.jpg_cli.specs.Certain.{HasSomeMeaning, IsNotRefused, IsDoneAsOrWanting, IsDoneOrWanting};

/// If no count of open, read or write rose, a run that transforms a picture ends as its scans and its input determine:
/// Refused if the script's file has a fault; otherwise Done if the input means a picture that has no fault for the
/// choice, Warned if it ends early and means one, Picture if the picture has a fault, Refused with its first fault; or
/// NoMemory.
pub fn answers_are_due()
    ensures { (asked : TransformAsked) (old : DeskState) → WhereNoneRose (Transformed asked) old (IsAnswerDue asked old) }
{}

/// A file that means a picture is transformed: if the desk knows it, and the script's file if there is one, the picture
/// has no fault for the choice, and no count of open, read or write rose, the run ends with Done, if it ends early with
/// Warned and its length, or with NoMemory. It is never refused: whichever counts rose, the run ends with Done, Warned,
/// Picture, a failed device, or NoMemory.
pub fn pictures_are_turned()
    ensures certain { (a : TransformAsked) (old : DeskState) → (has : HasPicture a old) → WhereNoneRose (Transformed a) old (IsDoneAsOrWanting has.early) }
    ensures read { (asked : TransformAsked) (old : DeskState) → HasFile asked old → WhateverRose (Transformed asked) old IsNotRefused }
{}

/// A transform and then its inverse, without trimming, conversion to grayscale and cropping, restore a picture: if the
/// input's picture is a transform of another one, and a run that asks for the inverse ends with Done or Warned, the
/// output means a picture with the other's sides, identifiers, factors, quantisation tables and blocks, in whatever
/// scans both are written and whatever is passed on.
pub fn pictures_are_turned_back()
    ensures { (t : Transform) (M : Meaning) (run : WasTurnedBack t M) → MeanSame (text_back run) M }
{}

/// If no count of open, read or write rose, a run that decodes a picture ends as its input determines: Done if it means
/// a picture that can be displayed, Warned if it ends early and means one, Refused with its first fault or because it
/// can't be displayed, whichever comes first, or NoMemory.
#[tactic(auto, using(crate::proofs::Outcomes::DueCommands::show_due))]
pub fn shown_answers_are_due()
    ensures { (showing : Showing) (old : DeskState) → WhereNoneRose (Shown showing) old (IsShowDue showing old) }
{}

/// A file that means a picture that can be displayed has its image written: if the desk knows it, and no count of open,
/// read or write rose, the run ends with Done, if it ends early with Warned and its length, or with NoMemory.
#[tactic(auto, using(crate::proofs::Outcomes::Certain::shown_certain))]
pub fn pictures_are_shown()
    ensures { (s : Showing) (old : DeskState) → (has : HasImage s old) → WhereNoneRose (Shown s) old (IsDoneAsOrWanting has.early) }
{}

/// If no count of open, read or write rose, a run that shows the front of a picture's file for so many scans ends as
/// its input determines: Done if the front means a picture that can be displayed, as a complete file or up to the
/// marker after these scans; Warned if the input ends early before and means one; Refused with the front's first fault
/// or because it can't be displayed, whichever comes first, or NoMemory.
#[tactic(auto, using(crate::proofs::Outcomes::DueCommands::front_due))]
pub fn shown_fronts_are_due()
    ensures { (scans : ℕ) (showing : Showing) (old : DeskState) → WhereNoneRose (FrontShown scans showing) old (IsFrontDue scans showing old) }
{}

/// A front that means a picture that can be displayed has its image written, whatever follows it: if the desk knows the
/// file, and no count of open, read or write rose, the run ends with Done, if the file ends early before with Warned
/// and its length, or with NoMemory. A front with a fault is refused with that.
pub fn fronts_are_shown()
    ensures certain { (scans : ℕ) (s : Showing) (old : DeskState) → (has : HasShownFront scans s old) → WhereNoneRose (FrontShown scans s) old (IsDoneAsOrWanting has.early) }
    ensures faulty { (scans : ℕ) (s : Showing) (f : FaultAt) (old : DeskState) → HasFaultyFront scans s f old → AnswersOrNoMemory (FrontShown scans s) old (why.Refused f) }
    ensures one { (scans : ℕ) (gray : Bool) (input : List ℕ) (f g : FaultAt) → IsFrontRefused scans gray input f → IsFrontRefused scans gray input g → f ≡ g }
{}

/// If no count of open, read or write rose, a run that encodes an image ends as its scans, its tables and its image
/// determine: Refused if the script's file has a fault, or else that of the tables, or else the input; otherwise
/// Picture if the image has a fault for the encoding, and Done if it has none; or NoMemory. Over a desk that knows its
/// files there is always one such result: so an image without a fault is encoded, and otherwise the fault is the
/// result.
pub fn encodings_are_due()
    ensures due { (asked : EncodeAsked) (old : DeskState) → WhereNoneRose (EncodedAsAsked asked) old (IsDueOrNoMemory asked old) }
    ensures one { (asked : EncodeAsked) (due : Why) (old : DeskState) → TellsFiles old → IsEncodeDue asked old due → AnswersOrNoMemory (EncodedAsAsked asked) old due }
{}

/// An input is refused with one fault at one place, whatever is asked for it: so are all runs that refuse it, however
/// it is cut into pieces. A file that means a picture isn't refused where its coefficients are asked for, nor one whose
/// picture can be displayed where its image is.
pub fn refusals_are_one()
    ensures one { (wanted : Wanted) (input : List ℕ) (f g : FaultAt) → IsRefusedFor wanted input f → IsRefusedFor wanted input g → f ≡ g }
    ensures runs { (input : List ℕ) (f g : FaultAt) → WasRefused input f → WasRefused input g → f ≡ g }
    ensures shows { (gray : Bool) (input : List ℕ) (f g : FaultAt) → WasRefusedShown gray input f → WasRefusedShown gray input g → f ≡ g }
    ensures none { (input : List ℕ) (f : FaultAt) → IsRefusedFor Coefficients input f → HasSomeMeaning input → ⊥ }
    ensures shown { (gray : Bool) (input : List ℕ) (f : FaultAt) → IsRefusedFor (Image gray) input f → MeanShown gray input → ⊥ }
{}

/// A fault is the result: if the desk knows the files, and no count of open, read or write rose, a run that transforms
/// a picture ends with the fault of the script's file, the first fault of the input, or the fault of the picture for
/// the choice, and a run that decodes one with what its input is refused with; or there was no memory.
pub fn faults_are_answered()
    ensures script { (a : TransformAsked) (f : FaultAt) (old : DeskState) → HasFaultyScript a.scans f old → AnswersOrNoMemory (Transformed a) old (why.Refused f) }
    ensures input { (a : TransformAsked) (f : FaultAt) (old : DeskState) → HasFaultyInput a f old → AnswersOrNoMemory (Transformed a) old (why.Refused f) }
    ensures picture { (a : TransformAsked) (f : PictureFault) (old : DeskState) → HasFaultyPicture a f old → AnswersOrNoMemory (Transformed a) old (why.Picture f) }
    ensures shown { (s : Showing) (f : FaultAt) (old : DeskState) → HasFaultyImage s f old → AnswersOrNoMemory (Shown s) old (why.Refused f) }
{}

/// If no count of open, read or write rose, a run that prints comments ends as its input determines: Done if a prefix
/// of it is complete, Refused with its fault, or NoMemory.
#[tactic(auto, using(crate::proofs::Comments::CommentsPrinted::print_due))]
pub fn printed_comments_are_due()
    ensures { (old : DeskState) (input output : Name) → WhereNoneRose (Printed input output) old (IsPrintDue input old) }
{}

/// If no count of open, read or write rose, a run that inserts a comment ends as the comment and its input determine:
/// Done if the input has a frame header, Refused with the fault of the comment or of the input, or NoMemory.
pub fn inserted_comments_are_due()
    ensures { (old : DeskState) (task : Task) → WhereNoneRose (Inserted task) old (IsInsertDue task old) }
{}

/// A file that is complete up to its first scan header, or up to EOI before any, has its comments printed: if the desk
/// knows it, and no count of open, read or write rose, the run ends with Done or with NoMemory.
#[tactic(auto, using(crate::proofs::Outcomes::Certain::printed_certain))]
pub fn whole_files_have_their_comments_printed()
    ensures { (old : DeskState) (input output : Name) → HasWholeFile old input → WhereNoneRose (Printed input output) old IsDoneOrWanting }
{}

/// A file with a frame header, and shorter than an input may be, has a comment of at most 65,000 bytes inserted: if the
/// desk knows both, and no count of open, read or write rose, the run ends with Done or with NoMemory.
pub fn files_with_a_frame_header_have_the_comment_inserted()
    ensures { (old : DeskState) (task : Task) → HasFrameHeader old task → WhereNoneRose (Inserted task) old IsDoneOrWanting }
{}

/// A transformed picture, and its image, don't depend on the markers that a reader leaves out.
pub fn unwanted_markers_are_not_missed()
    ensures { MissNothing }
{}
