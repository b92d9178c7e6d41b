// Questions for the normal image of a tag's bytes.
ghost use Rattle.types.specs.tables.Kept.{KeptRows};

use crate::faults::Fault;
use crate::puts::{BODY, accept, put_bytes};
use crate::type_words::ty_of_word;
use types::Tables;
use values::normal;
use words::Word;

// Kind 9: the image of a value, put at its place in the answer and made normal there.
pub fn tell_normal(rest: &[u8], tables: &Tables, out: &mut [u8]) -> Result<usize, Fault>
    requires { KeptRows tables.now.types tables.now.members }
{
    if rest.len() < 10 {
        return Err(Fault::NotAQuestion);
    }
    let end = BODY + (rest.len() - 10);
    if out.len() < end {
        return Err(Fault::NotAQuestion);
    }
    let ty = ty_of_word(u16::load(rest, 0));
    let count = u64::load(rest, 2);
    put_bytes(out, BODY, &rest[10..]);
    normal(
        &tables.types,
        &tables.members,
        ty,
        count,
        &mut out[BODY..end],
    )?;
    accept(out);
    Ok(end)
}
