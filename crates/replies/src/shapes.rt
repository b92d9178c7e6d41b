// Kind 4: the shape of a tag.
ghost use Rattle.types.specs.tables.Kept.{KeptTypes};

use crate::faults::Fault;
use crate::puts::{accept, put};
use crate::type_words::{ty_of_word, word_of_ty};
use types::{Shape, Tables, symbol_type, tag_shape};
use words::Word;

// The lengths that a question can have.
const LENGTHS: usize = 256;

// Where a question's lengths begin.
const FIRST: usize = 3;

fn put_shape(shape: Shape, symbol: u16, out: &mut [u8]) -> usize {
    let mut at = accept(out);
    at = put(out, at, word_of_ty(shape.ty));
    // Never more than three lengths are in use.
    at = put(out, at, (shape.used % 0x100) as u8);
    for length in shape.lengths {
        at = put(out, at, length);
    }
    at = put(out, at, shape.elements);
    at = put(out, at, shape.bytes);
    put(out, at, symbol)
}

// The shape of a type with lengths, and its symbol type.
pub fn tell_shape(rest: &[u8], tables: &Tables, out: &mut [u8]) -> Result<usize, Fault>
    requires { KeptTypes tables.now.types }
{
    if rest.len() < FIRST {
        return Err(Fault::NotAQuestion);
    }
    let n = usize::from(rest[2]);
    if rest.len() - FIRST < 4 * n {
        return Err(Fault::NotAQuestion);
    }
    let mut lengths = [0u32; LENGTHS];
    for i in 0..n {
        lengths[i] = u32::load(rest, FIRST + 4 * i);
    }
    let shape = tag_shape(&tables.types, ty_of_word(u16::load(rest, 0)), &lengths[..n])?;
    let symbol = symbol_type(&tables.types, shape)?;
    Ok(put_shape(shape, symbol, out))
}
