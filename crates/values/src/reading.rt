// Document 01, "Reading": a tag's bytes become a value stream; stored texts.
pub(crate) mod atomics;
pub(crate) mod images;
pub(crate) mod numbers;
pub(crate) mod read;
pub(crate) mod rows;
pub(crate) mod runs;
pub(crate) mod stored;
pub(crate) mod texts;
pub(crate) mod walk;
