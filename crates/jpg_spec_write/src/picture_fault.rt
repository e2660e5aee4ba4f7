//! Why a picture can't be written as it is asked for.
ghost use Rattle.std.specs.Prelude.{◌≡◌};
ghost use Rattle.jpg_spec_write.specs.PictureFaults.{picture_name};

/// Why a picture can't be written as it is asked for.
#[derive(Clone, Copy, Debug, PartialEq, Eq)]
pub enum PictureFault {
    /// Conversion to grayscale of colours other than gray and YCbCr.
    GrayColour,
    /// Conversion to grayscale where the first component doesn't have the greatest factors.
    GrayFactors,
    /// A component whose ratio to the greatest factors isn't an integer.
    FractionalFactors {
        component: u8,
    },
    /// The padded grids have too many blocks.
    TooManyBlocks,
    /// An entry of a script names a component that isn't in the frame, or its components don't ascend.
    ScriptComponent {
        entry: u8,
    },
    /// The MCUs of an entry have more than 10 blocks.
    ScriptMcu {
        entry: u8,
    },
    /// The band or the bits of an entry aren't allowed there.
    ScriptBand {
        entry: u8,
    },
    /// The first coefficient that isn't known down to bit 0, with the bit that it is known down to, if it was sent.
    ScriptIncomplete {
        component: u8,
        coefficient: u8,
        bit: Option<u8>,
    },
    /// The area that is cut out isn't inside the transformed picture.
    CropOutside,
}

impl PictureFault {
    /// Its name in messages.
    pub fn name(self) -> &'static str
        ensures { result.now ≡ picture_name self }
    {
        match self {
            PictureFault::GrayColour => "GrayColour",
            PictureFault::GrayFactors => "GrayFactors",
            PictureFault::FractionalFactors { .. } => "FractionalFactors",
            PictureFault::TooManyBlocks => "TooManyBlocks",
            PictureFault::ScriptComponent { .. } => "ScriptComponent",
            PictureFault::ScriptMcu { .. } => "ScriptMcu",
            PictureFault::ScriptBand { .. } => "ScriptBand",
            PictureFault::ScriptIncomplete { .. } => "ScriptIncomplete",
            PictureFault::CropOutside => "CropOutside",
        }
    }
}
