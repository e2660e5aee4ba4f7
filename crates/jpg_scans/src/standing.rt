//! The position in a list of numbers of a script's text.

// Before all numbers of a list, in a number with this many digits so far, after a number, or after a number and a comma
// or hyphen.
#[derive(Clone, Copy)]
pub enum Standing {
    Before,
    InNumber { digits: u8, value: u8 },
    Behind,
    Joined,
}
