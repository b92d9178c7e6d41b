// Where a reading stands in its buffer: the place of the next entry, and how many bytes of text are written.

#[derive(Clone, Copy, Debug, PartialEq, Eq)]
pub struct Place {
    pub at: usize,
    pub text: usize,
}
