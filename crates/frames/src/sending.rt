// Sending: a frame written to standard output from a lent buffer, whose first four bytes are left for its length.
use words::Word;

// The most bytes of a frame.
const MOST: usize = 1048576;

// Where a frame's bytes begin.
pub const START: usize = 4;

// Writes the first n bytes; says whether they could be written.
fn write_first(out: &[u8], n: usize) -> bool {
    if out.len() < n {
        return false;
    }
    io::write_all(1, &out[0..n])
}

// Writes so many bytes of the buffer, after its start, with their number before them; says whether it could.
pub fn send_frame(out: &mut [u8], long: usize) -> bool {
    if out.len() < START {
        return false;
    }
    if MOST < long {
        return false;
    }
    (long as u32).store(out, 0);
    write_first(out, START + long)
}
