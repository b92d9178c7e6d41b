// An answer's parts, put into the output buffer one after the other. Each answers the place after what it put; what has
// no room is left out, and none of a question's answers comes near the buffer's end.
ghost use Rattle.std.specs.Prelude.{◌+◌, ◌≤◌, length, IfOk};

use crate::faults::Fault;
use types::Span;
use words::{Word, copy};

// Where a refusal's number stands: first of all.
const NUMBER: usize = 0;

// Where what was asked for begins in an answer: after the number and the place.
pub const BODY: usize = 5;

// A larger room for it counts as this.
const MOST_ROOM: usize = 1048000;

// Where a body ends that has the room that the question names at a place. The question is none if it ends before it
// names the room, or if the answer has not so much.
pub fn body_end(rest: &[u8], at: usize, out: &[u8]) -> Result<usize, Fault>
    ensures { IfOk result (λ end. (5 ≤ end) × ((end ≤ length out.now) × (at + 4 ≤ length rest.now))) }
{
    let long = rest.len();
    if long < 4 || long - 4 < at {
        return Err(Fault::NotAQuestion);
    }
    let room = u32::load(rest, at) as usize;
    let end = BODY + room.min(MOST_ROOM);
    if out.len() < end {
        return Err(Fault::NotAQuestion);
    }
    Ok(end)
}

pub fn put_bytes(out: &mut [u8], at: usize, s: &[u8]) -> usize {
    let long = s.len();
    if out.len() < long || out.len() - long < at {
        return at;
    }
    copy(out, at, s);
    at + long
}

// A number.
pub fn put<W: Word>(out: &mut [u8], at: usize, x: W) -> usize {
    let long = W::BYTES;
    if out.len() < long || out.len() - long < at {
        return at;
    }
    x.store(out, at);
    at + long
}

// How many types or members there are; the tables have fewer rows than a word counts.
pub fn put_count(out: &mut [u8], at: usize, n: u32) -> usize {
    put(out, at, (n % 0x1_0000) as u16)
}

// A name and its length before it. Every name of the tables lies inside them and is short.
pub fn put_name(out: &mut [u8], at: usize, names: &[u8], name: Span) -> usize {
    let long = name.long as usize;
    let start = name.at as usize;
    let end = start + long;
    if names.len() < end || 255 < long {
        return put(out, at, 0u8);
    }
    let next = put(out, at, long as u8);
    put_bytes(out, next, &names[start..end])
}

// The number and place that every answer begins with.
fn put_head(out: &mut [u8], number: u8, place: u32) -> usize {
    let at = put(out, NUMBER, number);
    put(out, at, place)
}

pub fn accept(out: &mut [u8]) -> usize {
    put_head(out, 0, 0)
}

pub fn put_fault(out: &mut [u8], fault: Fault) -> usize {
    put_head(out, fault.number(), fault.place())
}
