// Document 01, "Normal image": an image that holds the same values and nothing else.
pub(crate) mod flags;
pub(crate) mod leaves;
pub(crate) mod normal;
pub(crate) mod walk;
