// Questions that write: a value stream set in a tag's bytes. The image follows in the answer, also after a refusal, so
// that one can see that nothing changed.
ghost use Rattle.std.specs.Prelude.{◌+◌, ◌≤◌, length};
ghost use Rattle.types.specs.tables.Kept.{KeptRows};

use crate::faults::Fault;
use crate::puts::{BODY, accept, put_bytes, put_fault};
use crate::type_words::ty_of_word;
use types::Tables;
use values::write;
use words::Word;

// The image of the question, `long` bytes, put at its place in the answer, and the stream after it written there.
fn put_written(rest: &[u8], long: usize, tables: &Tables, out: &mut [u8]) -> Result<usize, Fault>
    requires kept_rows { KeptRows tables.now.types tables.now.members }
    requires long_in_bounds { 14 + long ≤ length rest.now }
{
    let past = 14 + long;
    let end = BODY + long;
    if out.len() < end {
        return Err(Fault::NotAQuestion);
    }
    let ty = ty_of_word(u16::load(rest, 0));
    let count = u64::load(rest, 2);
    put_bytes(out, BODY, &rest[14..past]);
    match write(
        &tables.types,
        &tables.members,
        ty,
        count,
        &rest[past..],
        &mut out[BODY..end],
    ) {
        Ok(()) => accept(out),
        Err(why) => put_fault(out, Fault::Refused(why)),
    };
    Ok(end)
}

// Kind 6.
pub fn tell_write(rest: &[u8], tables: &Tables, out: &mut [u8]) -> Result<usize, Fault>
    requires { KeptRows tables.now.types tables.now.members }
{
    if rest.len() < 14 {
        return Err(Fault::NotAQuestion);
    }
    let long = u32::load(rest, 10) as usize;
    if rest.len() - 14 < long {
        return Err(Fault::NotAQuestion);
    }
    put_written(rest, long, tables, out)
}
