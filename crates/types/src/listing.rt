// The end of "Reference cases": the lines that the program `layout` prints.
pub(crate) mod lines;
