//! The files that words name, and why words aren't accepted.
ghost use Rattle.std.specs.Prelude.{◌≡◌, IfOk};
ghost use Rattle.jpg_spec_words.specs.Requests.{with_input, with_output};
ghost use Rattle.jpg_words.specs.Files.{file_said, files_said, files_view, name_view};

use jpg_base::{Name, NoMemory, Text};
use jpg_spec_words::Usage;
use std::alloc::Global;

/// The input and the output of a command.
#[derive(Drop)]
pub struct Files {
    pub input: Name,
    pub output: Name,
}

/// Why words aren't accepted: they are wrong, or there is no memory.
#[derive(Clone, Copy, Debug, PartialEq, Eq)]
pub enum WordsStop {
    Usage(Usage),
    NoMemory,
}

// The names of the input and the output, if words give them.
#[derive(Clone, Copy)]
pub(crate) struct FilesSaid<'a> {
    pub input: Option<&'a str>,
    pub output: Option<&'a str>,
}

// No names.
pub(crate) const NO_FILES: FilesSaid<'static> = FilesSaid {
    input: None,
    output: None,
};

impl<'a> FilesSaid<'a> {
    // The names with this input.
    pub(crate) fn from(self, name: &'a str) -> Self
        ensures { files_said result ≡ with_input name.now (files_said self.entry) }
    {
        FilesSaid {
            input: Some(name),
            ..self
        }
    }

    // The names with this output.
    pub(crate) fn to(self, name: &'a str) -> Self
        ensures { files_said result ≡ with_output name.now (files_said self.entry) }
    {
        FilesSaid {
            output: Some(name),
            ..self
        }
    }

    // The files of these names; standard input and standard output where there is none.
    pub(crate) fn to_files(self, alloc: Global) -> Result<Files, NoMemory>
        ensures { IfOk result (λ files. files_view files ≡ files_said self.entry) }
    {
        Ok(Files {
            input: name_or(alloc, self.input, Name::In)?,
            output: name_or(alloc, self.output, Name::Out)?,
        })
    }
}

// The file of this name, or the other if there is no name.
fn name_or(alloc: Global, name: Option<&str>, other: Name) -> Result<Name, NoMemory>
    ensures { IfOk result (λ file. name_view file ≡ file_said (name_view other) name.entry) }
{
    match name {
        Some(name) => Ok(Name::File(Text::new(alloc, name)?)),
        None => Ok(other),
    }
}
