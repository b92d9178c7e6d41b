// Document 01, "Template and handle": a template's bytes and length, the handle, waste.
pub(crate) mod handle;
pub(crate) mod pieces;
pub(crate) mod sink;
pub(crate) mod template;
pub(crate) mod waste;
