//! Restart markers of the scans of a file (T.81, B.2.4.4).

/// Where restart markers are in the scans of a file: nowhere; after every given number of rows of MCUs, at most 65,535
/// MCUs; or after every given number of MCUs, 0 for nowhere.
#[derive(Clone, Copy, Debug, PartialEq, Eq)]
pub enum Restart {
    Off,
    Rows(u16),
    Mcus(u16),
}
