//! What the commands return: why the work ended, and the texts that name it.
ghost use Rattle.std.specs.Prelude.{◌≡◌};
ghost use Rattle.jpg_spec_words.specs.Messages.{usage_name, which_name, status_of};

use jpg_spec::FaultAt;
use jpg_spec_write::PictureFault;

/// What is wrong with the words of a call.
#[derive(Clone, Copy, Debug, PartialEq, Eq)]
pub enum UsageFault {
    /// No words.
    NoTool,
    /// The first word names no command.
    UnknownTool,
    UnknownSwitch,
    /// A switch of release 6b that the suite leaves out.
    LeftOutSwitch,
    MissingValue,
    BadValue,
    TwoTransforms,
    TooManyFiles,
    TwoComments,
    NeedsInput,
    NoEnd,
}

impl UsageFault {
    /// Its name in messages.
    pub fn name(self) -> &'static str
        ensures { result.now ≡ usage_name self }
    {
        match self {
            UsageFault::NoTool => "NoTool",
            UsageFault::UnknownTool => "UnknownTool",
            UsageFault::UnknownSwitch => "UnknownSwitch",
            UsageFault::LeftOutSwitch => "LeftOutSwitch",
            UsageFault::MissingValue => "MissingValue",
            UsageFault::BadValue => "BadValue",
            UsageFault::TwoTransforms => "TwoTransforms",
            UsageFault::TooManyFiles => "TooManyFiles",
            UsageFault::TwoComments => "TwoComments",
            UsageFault::NeedsInput => "NeedsInput",
            UsageFault::NoEnd => "NoEnd",
        }
    }
}

/// A fault of the words, and the index of the word that has it.
#[derive(Clone, Copy, Debug, PartialEq, Eq)]
pub struct Usage {
    pub fault: UsageFault,
    pub word: u64,
}

/// The files of a command.
#[derive(Clone, Copy, Debug, PartialEq, Eq)]
pub enum Which {
    Input,
    Script,
    Tables,
    Comment,
    Output,
}

impl Which {
    /// Its name in messages.
    pub fn name(self) -> &'static str
        ensures { result.now ≡ which_name self }
    {
        match self {
            Which::Input => "input",
            Which::Script => "script",
            Which::Tables => "tables",
            Which::Comment => "comment",
            Which::Output => "output",
        }
    }
}

/// Why a command ended.
#[derive(Clone, Copy, Debug, PartialEq, Eq)]
pub enum Why {
    /// The complete output was written.
    Done,
    /// The complete output was written, of an input that ended early after this many bytes.
    Warned(u64),
    /// The words are wrong.
    Usage(Usage),
    /// The input has this fault at this place.
    Refused(FaultAt),
    /// The picture can't be written as it is asked for.
    Picture(PictureFault),
    /// The desk didn't open or create this file.
    OpenFault(Which),
    /// The desk didn't read this file.
    ReadFault(Which),
    /// The desk didn't write the output.
    WriteFault,
    /// There was no memory.
    NoMemory,
}

impl Why {
    /// The exit status: 0 for Done, 2 for Warned, 3 for NoMemory, 1 for the others.
    pub fn code(self) -> u8
        ensures { result ≡ status_of self }
    {
        match self {
            Why::Done => 0,
            Why::Warned(_) => 2,
            Why::NoMemory => 3,
            _ => 1,
        }
    }
}
