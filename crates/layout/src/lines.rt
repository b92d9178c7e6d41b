// Lines gathered in a buffer, which is written where it has no room for another line (document 01, end of
// "Reference cases"). A place in the buffer says how much of it is gathered.
ghost use Rattle.std.specs.Prelude.{◌≤◌, length};
ghost use Rattle.types.specs.tables.Kept.{KeptTables};

use types::{Refusal, Tables, put_member_line, put_refused_line, put_type_line};

// No line is longer.
const LINE: usize = 512;

// The place of the next line: what is gathered is written first where the rest may be too short.
fn next_place(out: &[u8], at: usize) -> usize
    requires { at ≤ length out.now }
    ensures { result ≤ length out.now }
{
    if LINE <= out.len() - at {
        return at;
    }
    io::write_all(1, &out[..at]);
    0
}

// The place after a line that was given from a place on, in a buffer of so many bytes. A refused one adds nothing.
fn place_after(from: usize, given: Result<u32, Refusal>, long: usize) -> usize
    requires { from ≤ long }
    ensures { result ≤ long }
{
    match given {
        Ok(n) if n as usize <= long - from => from + n as usize,
        _ => from,
    }
}

// The line of the type with a number; answers the place after it.
pub fn add_type(tables: &Tables, i: usize, out: &mut [u8], at: usize) -> usize
    requires { KeptTables tables.now × (at ≤ length out.old) }
    ensures { result ≤ length out.old }
{
    let from = next_place(out, at);
    let given = put_type_line(tables, i, &mut out[from..]);
    place_after(from, given, out.len())
}

// The line of the k-th member of the type with a number; answers the place after it.
pub fn add_member(tables: &Tables, i: usize, k: usize, out: &mut [u8], at: usize) -> usize
    requires { KeptTables tables.now × (at ≤ length out.old) }
    ensures { result ≤ length out.old }
{
    let from = next_place(out, at);
    let given = put_member_line(tables, i, k, &mut out[from..]);
    place_after(from, given, out.len())
}

// A refusal's line, written.
pub fn say_refused(why: Refusal, out: &mut [u8]) {
    let given = put_refused_line(why.number(), why.place(), out);
    let n = place_after(0, given, out.len());
    io::write_all(1, &out[..n]);
}
