// Calls of jpg_huff, jpg_coefs, jpg_scans, jpg_seq and jpg_file.
pub(crate) mod bits;
pub(crate) mod blocks;
pub(crate) mod codes;
pub(crate) mod data;
pub(crate) mod files;
pub(crate) mod heads;
pub(crate) mod intervals;
pub(crate) mod machine;
pub(crate) mod scripts;
pub(crate) mod tables;
pub(crate) mod walks;
