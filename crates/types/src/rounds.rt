// Document 01, "Order of building": member types that are known, turns, rounds, the whole build.
pub(crate) mod build;
pub(crate) mod resolve;
pub(crate) mod round;
pub(crate) mod turn;
