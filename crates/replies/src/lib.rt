// The answer to a question, in bytes: the public calls of `types` and `values` behind one call. The first byte of a
// question is its kind; an answer begins with a refusal's number and place, and what was asked for follows where the
// number is 0. Kinds 1 to 10.
#![tactic(auto)]

mod describe;
mod faults;
mod kinds;
mod normals;
mod puts;
mod shapes;
mod streams;
mod type_words;
mod writes;

pub use kinds::answer;
