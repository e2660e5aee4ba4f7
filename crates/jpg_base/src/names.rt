//! Names of files, and what a desk returns.
ghost use Rattle.std.specs.Prelude.{◌≡◌, IfOk};

use crate::Text;
use std::alloc::Global;

/// There was no memory for the call.
#[derive(Clone, Copy, Debug, PartialEq, Eq)]
pub struct NoMemory;

/// A file: standard input, standard output, or one with a name.
#[derive(Drop)]
pub enum Name {
    In,
    Out,
    File(Text),
}

impl Name {
    ghost use Rattle.jpg_base.specs.Name.{is_same_name};

    /// Whether both name the same file: two file names are compared by their bytes.
    pub fn is_same(&self, other: &Name) -> bool
        ensures { result ≡ is_same_name self.now other.now }
    {
        match (self, other) {
            (Name::In, Name::In) => true,
            (Name::Out, Name::Out) => true,
            (Name::File(a), Name::File(b)) => a.as_str() == b.as_str(),
            _ => false,
        }
    }

    /// A copy of the name. Returns `NoMemory` only if there is none for the text.
    pub fn try_clone(&self, alloc: Global) -> Result<Name, NoMemory>
        ensures { IfOk result (λ name. name ≡ self.now) }
    {
        match self {
            Name::In => Ok(Name::In),
            Name::Out => Ok(Name::Out),
            Name::File(text) => {
                let copy = Text::new(alloc, text.as_str())?;
                Ok(Name::File(copy))
            }
        }
    }
}

/// What `open`, `create`, `write` and `say` return.
#[derive(Clone, Copy, Debug, PartialEq, Eq)]
pub enum Put {
    Done,
    Failed,
}

/// What `read` returns: the number of bytes that it gave, at least one; that none are left; or
/// that it failed.
#[derive(Clone, Copy, Debug, PartialEq, Eq)]
pub enum Got {
    Bytes(u32),
    End,
    Failed,
}

/// How often each kind of call has failed. `open` and `create` share one count. A count stops at
/// `u64::MAX`.
#[derive(Clone, Copy, Debug, PartialEq, Eq)]
pub struct Counts {
    /// Calls of `open` and `create`.
    pub opens: u64,
    /// Calls of `read`.
    pub reads: u64,
    /// Calls of `write`.
    pub writes: u64,
    /// Calls of `say`.
    pub says: u64,
}
