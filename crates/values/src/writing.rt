// Document 01, "Writing": a stream's values are set in a tag's bytes.
pub(crate) mod apply;
pub(crate) mod bools;
pub(crate) mod check;
pub(crate) mod fits;
pub(crate) mod limits;
pub(crate) mod sets;
pub(crate) mod write;
