//! The faults of an input, in the order of their priority.
ghost use Rattle.std.specs.Prelude.{◌≡◌};
ghost use Rattle.jpg_spec.specs.Faults.{fault_name};

/// Why an input is refused. Of faults at one place the first in this order is reported.
#[derive(Clone, Copy, Debug, PartialEq, Eq)]
pub enum Fault {
    /// Byte 1 isn't FF, or byte 2 isn't D8.
    NotJpeg,
    /// The input ends before EOI is complete, and has no other fault.
    Truncated,
    /// Where an item begins outside scan data, a byte other than FF, or 00 after FF bytes (B.1.1.2).
    NoMarker,
    /// Outside scan data a code 01 to BF, D0 to D8 or F0 to FD, or EOI before the frame.
    UnexpectedMarker,
    /// A process that the suite doesn't read: codes C3, C5 to CF, DC, DE and DF (Table B.1).
    UnsupportedProcess,
    /// A second frame header.
    SecondFrame,
    /// A scan header before the frame header.
    SosBeforeSof,
    /// A length that doesn't fit the contents of its segment.
    BadLength,
    /// The kept markers exceed their limit.
    MarkersTooLarge,
    /// A side is 0 (B.2.2; no DNL).
    EmptyImage,
    /// A side exceeds its limit.
    TooLarge,
    /// The sample precision isn't one that is read.
    Precision,
    /// Not one to four components.
    ComponentCount,
    /// A sampling factor isn't 1 to 4 (B.2.2).
    Sampling,
    /// Two components with one identifier.
    DuplicateComponent,
    /// A component's quantisation table slot is above 3.
    QuantSlot,
    /// The padded grids have too many blocks.
    TooManyBlocks,
    /// A quantisation table's precision, slot or entry isn't allowed (B.2.4.1).
    BadQuant,
    /// A Huffman table's class, slot or codes aren't allowed (B.2.4.2, Annex C).
    BadHuffman,
    /// A scan's components aren't one to four distinct ones of the frame (B.2.3).
    ScanComponent,
    /// An MCU of more than 10 blocks (B.2.3).
    McuTooLarge,
    /// The band or the bits of a progressive scan aren't allowed (G.1.1.1).
    ScanParameters,
    /// A sequential component in a second scan.
    RepeatedScan,
    /// A progressive scan that the scans before it don't admit (G.1.1.1).
    Progression,
    /// A table that the scan needs isn't there.
    MissingTable,
    /// A component's quantisation table isn't that of its first scan.
    QuantChanged,
    /// Bits that begin no code of the table.
    NoCode,
    /// A symbol that isn't allowed where it is.
    BadSymbol,
    /// A run of zeros past the end of the band.
    BadRun,
    /// A value out of the range of the precision.
    CoefRange,
    /// An end-of-band run past the end of its interval.
    RunPastEnd,
    /// A marker while units of the interval are left.
    EntropyShort,
    /// A data byte after the interval's last unit.
    ExtraData,
    /// A marker other than the expected RST (E.1.4).
    RestartWrong,
    /// EOI while a component was in no scan.
    MissingComponent,
    /// The input reaches its limit without being a complete file, and has no other fault.
    InputTooLong,
    /// Colours that can't be displayed.
    ColourOut,
    /// A component whose sampling ratio isn't an integer.
    FractionalSampling,
    /// The text of a script is malformed.
    ScriptText,
    /// The text of quantisation tables is malformed.
    TableText,
    /// A comment above 65,000 bytes.
    CommentTooLong,
    /// The text of an image is malformed.
    ImageText,
    /// An image's header isn't allowed.
    ImageHeader,
    /// A form of image that isn't read.
    ImageUnsupported,
    /// An image that ends before its last sample.
    ImageShort,
    /// A sample above its greatest value.
    ImageValue,
}

impl Fault {
    /// Its name in messages.
    pub fn name(self) -> &'static str
        ensures { result.now ≡ fault_name self }
    {
        match self {
            Fault::NotJpeg => "NotJpeg",
            Fault::Truncated => "Truncated",
            Fault::NoMarker => "NoMarker",
            Fault::UnexpectedMarker => "UnexpectedMarker",
            Fault::UnsupportedProcess => "UnsupportedProcess",
            Fault::SecondFrame => "SecondFrame",
            Fault::SosBeforeSof => "SosBeforeSof",
            Fault::BadLength => "BadLength",
            Fault::MarkersTooLarge => "MarkersTooLarge",
            Fault::EmptyImage => "EmptyImage",
            Fault::TooLarge => "TooLarge",
            Fault::Precision => "Precision",
            Fault::ComponentCount => "ComponentCount",
            Fault::Sampling => "Sampling",
            Fault::DuplicateComponent => "DuplicateComponent",
            Fault::QuantSlot => "QuantSlot",
            Fault::TooManyBlocks => "TooManyBlocks",
            Fault::BadQuant => "BadQuant",
            Fault::BadHuffman => "BadHuffman",
            Fault::ScanComponent => "ScanComponent",
            Fault::McuTooLarge => "McuTooLarge",
            Fault::ScanParameters => "ScanParameters",
            Fault::RepeatedScan => "RepeatedScan",
            Fault::Progression => "Progression",
            Fault::MissingTable => "MissingTable",
            Fault::QuantChanged => "QuantChanged",
            Fault::NoCode => "NoCode",
            Fault::BadSymbol => "BadSymbol",
            Fault::BadRun => "BadRun",
            Fault::CoefRange => "CoefRange",
            Fault::RunPastEnd => "RunPastEnd",
            Fault::EntropyShort => "EntropyShort",
            Fault::ExtraData => "ExtraData",
            Fault::RestartWrong => "RestartWrong",
            Fault::MissingComponent => "MissingComponent",
            Fault::InputTooLong => "InputTooLong",
            Fault::ColourOut => "ColourOut",
            Fault::FractionalSampling => "FractionalSampling",
            Fault::ScriptText => "ScriptText",
            Fault::TableText => "TableText",
            Fault::CommentTooLong => "CommentTooLong",
            Fault::ImageText => "ImageText",
            Fault::ImageHeader => "ImageHeader",
            Fault::ImageUnsupported => "ImageUnsupported",
            Fault::ImageShort => "ImageShort",
            Fault::ImageValue => "ImageValue",
        }
    }
}

/// A fault, and how many input bytes reveal it.
#[derive(Clone, Copy, Debug, PartialEq, Eq)]
pub struct FaultAt {
    pub fault: Fault,
    pub at: u64,
}
