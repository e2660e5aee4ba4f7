//! Why a call stops, and how a feed ends.
ghost use Rattle.std.specs.Prelude.{◌≡◌};
ghost use Rattle.jpg_spec.specs.declared.fault.Fault.TheVariants.{Truncated, InputTooLong};
ghost use Rattle.jpg_base.specs.declared.stop.Stop.TheVariants as stop;

use crate::NoMemory;
use jpg_spec::{Fault, FaultAt};

/// A write to the output that failed.
#[derive(Clone, Copy, Debug, PartialEq, Eq)]
pub struct WriteFault;

/// Why reading stops: the input has a fault, or there is no memory.
#[derive(Clone, Copy, Debug, PartialEq, Eq)]
pub enum Stop {
    Fault(FaultAt),
    NoMemory,
}

impl Stop {
    /// The input has as many bytes as may be taken, and no complete file.
    pub fn too_long(most: u64) -> Stop
        ensures { result ≡ stop.Fault (record { fault = InputTooLong; at = most }) }
    {
        Stop::Fault(FaultAt {
            fault: Fault::InputTooLong,
            at: most,
        })
    }

    /// The input ends after the bytes that were taken, and has no complete file.
    pub fn truncated(taken: u64) -> Stop
        ensures { result ≡ stop.Fault (record { fault = Truncated; at = taken }) }
    {
        Stop::Fault(FaultAt {
            fault: Fault::Truncated,
            at: taken,
        })
    }
}

impl From<NoMemory> for Stop {
    ghost use Rattle.jpg_base.specs.declared.stop.Stop.TheVariants.{NoMemory as wants_memory};

    ghost from_gives = { λ _ stop. stop ≡ wants_memory };

    fn from(_: NoMemory) -> Stop {
        Stop::NoMemory
    }
}

/// The result of a piece of input: more is needed, or the file is complete after this many bytes of the piece.
#[derive(Clone, Copy, Debug, PartialEq, Eq)]
pub enum Fed {
    More,
    Done { used: u64 },
}
