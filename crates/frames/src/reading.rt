// Reading: the next frame of standard input, put to the start of a lent room. It is promised to lie in it.
ghost use Rattle.std.specs.Prelude.{length};
ghost use Rattle.frames.specs.inside.Reading.{FrameIn, NextIn};

use words::Word;

// A frame that is cut short or longer than its room.
#[derive(Clone, Copy, Debug, PartialEq, Eq)]
pub struct BrokenFrame;

// Reads want bytes to the start of the room. `io::count` keeps want within it.
fn fill(room: &mut [u8], want: isize) -> bool {
    let n = io::count(want, room);
    let got = io::read_full(0, &mut room[..n]);
    got == n
}

// How many bytes the next frame has; none where the input ended before it.
pub fn read_frame(room: &mut [u8]) -> Result<Option<usize>, BrokenFrame>
    ensures { FrameIn (length room.old) result }
{
    let mut head = [0u8; 4];
    let got = io::read_full(0, &mut head);
    if got == 0 {
        return Ok(None);
    }
    if got != 4 {
        return Err(BrokenFrame);
    }
    let n = u32::load(&head, 0) as usize;
    if n <= room.len() && fill(room, n as isize) {
        return Ok(Some(n));
    }
    Err(BrokenFrame)
}

// How many bytes the next frame has, where it does not matter why there is none.
pub fn next_frame(room: &mut [u8]) -> Option<usize>
    ensures { NextIn (length room.old) result }
{
    read_frame(room).unwrap_or(None)
}
