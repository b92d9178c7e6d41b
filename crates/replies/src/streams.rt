// Questions about a tag's bytes: their value stream, and the stored text of a string.
ghost use Rattle.types.specs.tables.Kept.{KeptRows};

use crate::faults::Fault;
use crate::puts::{BODY, accept, body_end, put_bytes};
use crate::type_words::ty_of_word;
use types::Tables;
use values::{read, text};
use words::Word;

// Kind 5: the stream of a value, written to its place in the answer.
pub fn tell_read(rest: &[u8], tables: &Tables, out: &mut [u8]) -> Result<usize, Fault>
    requires { KeptRows tables.now.types tables.now.members }
{
    let end = body_end(rest, 10, out)?;
    let ty = ty_of_word(u16::load(rest, 0));
    let count = u64::load(rest, 2);
    let n = read(
        &tables.types,
        &tables.members,
        ty,
        count,
        &rest[14..],
        &mut out[BODY..end],
    )?;
    accept(out);
    Ok(BODY + n)
}

// Kind 7: the stored text, copied to its place in the answer.
pub fn tell_text(rest: &[u8], tables: &Tables, out: &mut [u8]) -> Result<usize, Fault>
    requires { KeptRows tables.now.types tables.now.members }
{
    if rest.len() < 2 {
        return Err(Fault::NotAQuestion);
    }
    let ty = ty_of_word(u16::load(rest, 0));
    let stored = text(&tables.types, &tables.members, ty, &rest[2..])?;
    let k = accept(out);
    Ok(put_bytes(out, k, stored))
}
