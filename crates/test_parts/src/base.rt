// Calls of jpg_base.
pub(crate) mod desks;
pub(crate) mod frames;
pub(crate) mod places;
pub(crate) mod quiet;
