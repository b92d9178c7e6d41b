// Frames on standard input and output: a little-endian u32 length and that many bytes, at most 1,048,576. The programs
// that ask and answer in frames share them.
#![tactic(auto)]

mod reading;
mod rooms;
mod sending;

pub use reading::{BrokenFrame, next_frame, read_frame};
pub use rooms::{answer_room, room};
pub use sending::{START, send_frame};
