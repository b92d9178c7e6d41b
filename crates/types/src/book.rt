// Document 01, "Declaration book": the book's entries, the rule of names, declared members.
pub(crate) mod contents;
pub(crate) mod decls;
pub(crate) mod names;
