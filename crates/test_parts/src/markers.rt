// Calls of jpg_markers and jpg_comments.
pub(crate) mod comments;
pub(crate) mod contents;
pub(crate) mod heads;
pub(crate) mod segments;
pub(crate) mod tables;
pub(crate) mod written;
