// Calls of jpg_dct, jpg_sample and jpg_color, and of the examples of docs/CALLING.md.
pub(crate) mod callers;
pub(crate) mod samples;
