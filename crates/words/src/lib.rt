// Little-endian words and single bits of byte slices: the few functions, and all the laws, that the
// crates `types` and `values` share. Each function asks only that its place lies inside the slice.
#![tactic(auto)]

mod bits;
mod copies;
mod halves;
mod word;

pub use bits::{bit_at, set_bit};
pub use copies::copy;
pub use halves::{high32, low32};
pub use word::Word;
