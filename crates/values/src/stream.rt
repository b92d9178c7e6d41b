// Document 01, "Value stream": entries and their bytes, the form of a stream, how long it is.
pub(crate) mod count;
pub(crate) mod entry;
pub(crate) mod form;
pub(crate) mod kinds;
pub(crate) mod lengths;
pub(crate) mod place;
pub(crate) mod tokens;
