// Document 01, "What is ported", "Atomic types": atomics, a type's header, types by their names.
pub(crate) mod atomic;
pub(crate) mod bits;
pub(crate) mod header;
pub(crate) mod lookup;
