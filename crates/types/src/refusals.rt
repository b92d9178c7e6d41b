// Document 01, "Refusal numbers": what a call says, by number and place.
pub(crate) mod given;
pub(crate) mod refusal;
