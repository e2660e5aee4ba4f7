//! The numbers of a frame and of its scans (T.81, A.1, A.2, B.2.2, B.2.3).
ghost use Rattle.std.specs.Prelude.{◌≡◌};
ghost use Rattle.jpg_spec.specs.Segments.{standard_limits};

/// The coding process that a frame header names (T.81, Table B.1).
#[derive(Clone, Copy, Debug, PartialEq, Eq)]
pub enum Process {
    /// SOF0: baseline sequential.
    Baseline,
    /// SOF1: extended sequential.
    Extended,
    /// SOF2: progressive.
    Progressive,
}

/// What the samples of the components are (JFIF 1.02, Adobe's APP14).
#[derive(Clone, Copy, Debug, PartialEq, Eq)]
pub enum Colour {
    Gray,
    YCbCr,
    Rgb,
    Cmyk,
    Ycck,
    Unknown,
}

/// Which of the kept markers an output passes on.
#[derive(Clone, Copy, Debug, PartialEq, Eq)]
pub enum Copying {
    /// None of them.
    None,
    /// Only comments.
    Comments,
    /// All of them.
    All,
}

/// A component of a frame (T.81, B.2.2).
#[derive(Clone, Copy, Debug, PartialEq, Eq, Default)]
pub struct Component {
    /// Its identifier Ci.
    pub id: u8,
    /// Its horizontal sampling factor Hi, 1 to 4.
    pub h: u8,
    /// Its vertical sampling factor Vi, 1 to 4.
    pub v: u8,
    /// The slot of its quantisation table, Tqi, 0 to 3.
    pub quant: u8,
}

/// The size of a grid of blocks or MCUs, in columns and rows.
#[derive(Clone, Copy, Debug, PartialEq, Eq)]
pub struct Grid {
    pub wide: u32,
    pub high: u32,
}

/// The place of a block (T.81, A.2.2 to A.2.4).
#[derive(Clone, Copy, Debug, PartialEq, Eq)]
pub struct Place {
    /// The component's index in the frame.
    pub component: u8,
    /// The block's column.
    pub x: u32,
    /// The block's row.
    pub y: u32,
    /// It is in the component's real grid; otherwise it is a padding block (A.2.4).
    pub real: bool,
}

/// What a precision allows (T.81, F.1.2, G.1.2).
#[derive(Clone, Copy, Debug, PartialEq, Eq)]
pub struct Bounds {
    /// The least DC.
    pub dc_low: i32,
    /// The greatest DC.
    pub dc_high: i32,
    /// The greatest magnitude of AC.
    pub ac: i32,
    /// The greatest category of a DC difference.
    pub dc_cat: u8,
    /// The greatest category of an AC value.
    pub ac_cat: u8,
    /// The greatest point transform Al.
    pub al: u8,
}

/// The limits of an input.
#[derive(Clone, Copy, Debug, PartialEq, Eq)]
pub struct Limits {
    /// The greatest side in samples.
    pub side: u32,
    /// The most blocks in all padded grids.
    pub blocks: u32,
    /// The most bytes of kept markers.
    pub kept: u64,
    /// The most bytes of input.
    pub input: u64,
}

impl Limits {
    /// Sides of 65500 samples, 8388608 blocks, 2^28 bytes of kept markers and 2^40 bytes of input.
    pub fn standard() -> Limits
        ensures { result ≡ standard_limits }
    {
        Limits {
            side: 65500,
            blocks: 8_388_608,
            kept: 1 << 28,
            input: 1 << 40,
        }
    }
}

/// A component of a scan: its index in the frame, and the slots of its DC and AC tables (T.81, B.2.3).
#[derive(Clone, Copy, Debug, PartialEq, Eq, Default)]
pub struct ScanPart {
    pub component: u8,
    pub dc: u8,
    pub ac: u8,
}
