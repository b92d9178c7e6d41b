// Tag shapes (document 01, "Tag shape"): a type with up to three lengths, and the bytes that a tag of it
// takes; or why there is no such tag.
ghost use Rattle.std.specs.Prelude.{◌≡◌, true, get_or};
ghost use Rattle.types.specs.inside.shape.Tags.{product_of, PlainTag};
ghost use Rattle.types.specs.inside.tables.Lent.{TyFits};
ghost use Rattle.types.specs.shape.Tags.{most_lengths, none_zero, lengths_ok, bool_tag, three, within};
ghost use Rattle.types.specs.shape.Tags.{bool_shape, plain_shape, shape_of, symbol_for};
ghost use Rattle.types.specs.refusals.Said.{said_by};
ghost use Rattle.types.specs.tables.Kept.{KeptTypes};
ghost use Rattle.types.specs.tables.Sizes.{sizes_in};

use crate::atomics::atomic::Atomic;
use crate::layout::placing::{MOST_SIZE, is_bool};
use crate::refusals::refusal::Refusal;
use crate::tables::lent::TypeTable;
use crate::tables::member::Ty;
use crate::tables::sizes::size_in;
use crate::tables::there::is_there;
use crate::tables::type_word::type_in;

// The most lengths of a tag.
const MOST_LENGTHS: usize = 3;

// The stored type, the lengths in use and zeros after them, how many of them are in use, the stored elements
// and their bytes. A BOOL array has its BOOLs as the length, and DWORDs as elements.
#[derive(Clone, Copy, Debug, PartialEq, Eq)]
pub struct Shape {
    pub ty: Ty,
    pub lengths: [u32; 3],
    pub used: usize,
    pub elements: u64,
    pub bytes: u64,
}

// BOOL has one length at most, any other type three.
fn most_lengths(ty: Ty) -> usize
    ensures { result ≡ most_lengths ty }
{
    if is_bool(ty) { 1 } else { MOST_LENGTHS }
}

fn none_zero(lengths: &[u32]) -> bool
    ensures { result ≡ none_zero lengths.now }
{
    lengths.iter().all(|&n| n != 0)
}

fn lengths_ok(ty: Ty, lengths: &[u32]) -> bool
    ensures { result ≡ lengths_ok ty lengths.now }
{
    lengths.len() <= most_lengths(ty) && none_zero(lengths)
}

// BOOL with a length.
fn bool_tag(ty: Ty, lengths: &[u32]) -> bool
    ensures { result ≡ bool_tag ty lengths.now }
{
    is_bool(ty) && !lengths.is_empty()
}

// The length at a place, 0 past the last.
fn length_at(lengths: &[u32], i: usize) -> u32
    ensures { result ≡ get_or lengths.now i 0 }
{
    lengths.get(i).copied().unwrap_or(0)
}

// Up to three lengths, as a shape has them.
fn three_of(lengths: &[u32]) -> [u32; 3]
    ensures { result ≡ three lengths.now }
{
    [
        length_at(lengths, 0),
        length_at(lengths, 1),
        length_at(lengths, 2),
    ]
}

// The product of the lengths.
fn multiplied(lengths: &[u32]) -> Option<u64>
    requires { none_zero lengths.now ≡ true }
    ensures { result ≡ product_of lengths.now }
{
    let mut n: u64 = 1;
    for &x in lengths {
        n = n.checked_mul(u64::from(x))?;
    }
    Some(n)
}

// A tag of n elements of a stored type.
fn tag_within(
    types: &TypeTable,
    ty: Ty,
    lengths: [u32; 3],
    used: usize,
    n: u64,
) -> Result<Shape, Refusal>
    requires { TyFits ty }
    ensures { said_by result ≡ within (sizes_in types.now) ty lengths used n }
{
    // Bytes that 64 bits cannot count are too many as well.
    let bytes = size_in(types, ty).saturating_mul(n);
    if MOST_SIZE < bytes {
        return Err(Refusal::TagTooLarge);
    }
    Ok(Shape {
        ty,
        lengths,
        used,
        elements: n,
        bytes,
    })
}

// A tag of so many BOOLs: rounded up to 32s, and stored as DWORDs.
fn bool_shape(types: &TypeTable, n: u32) -> Result<Shape, Refusal>
    ensures { said_by result ≡ bool_shape (sizes_in types.now) n }
{
    let up = n.checked_next_multiple_of(32).ok_or(Refusal::TagTooLarge)?;
    tag_within(
        types,
        Ty::Atomic(Atomic::DWord),
        [up, 0, 0],
        1,
        u64::from(up / 32),
    )
}

// A tag of any other type, or of one BOOL.
fn plain_shape(types: &TypeTable, ty: Ty, lengths: &[u32]) -> Result<Shape, Refusal>
    requires { PlainTag ty lengths.now }
    ensures { said_by result ≡ plain_shape (sizes_in types.now) ty lengths.now }
{
    let n = multiplied(lengths).ok_or(Refusal::TagTooLarge)?;
    tag_within(types, ty, three_of(lengths), lengths.len(), n)
}

// The shape of a tag of a type with lengths; or 15, 23 or 24.
pub fn tag_shape(types: &TypeTable, ty: Ty, lengths: &[u32]) -> Result<Shape, Refusal>
    ensures { said_by result ≡ shape_of types.now ty lengths.now }
{
    if !is_there(types, ty) {
        return Err(Refusal::NoSuchType);
    }
    if !lengths_ok(ty, lengths) {
        return Err(Refusal::LengthsWrong);
    }
    if bool_tag(ty, lengths) {
        bool_shape(types, length_at(lengths, 0))
    } else {
        plain_shape(types, ty, lengths)
    }
}

// The symbol type of a shape: the word of its type, and how many lengths it has. A shape as `tag_shape` gives it has
// one; any other may be of a type that is not there (15), or have more than three lengths (23).
pub fn symbol_type(types: &TypeTable, s: Shape) -> Result<u16, Refusal>
    requires { KeptTypes types.now }
    ensures { said_by result ≡ symbol_for types.now s.ty s.used }
{
    if !is_there(types, s.ty) {
        return Err(Refusal::NoSuchType);
    }
    if MOST_LENGTHS < s.used {
        return Err(Refusal::LengthsWrong);
    }
    Ok((type_in(types, s.ty) + 8192 * (s.used as u32)) as u16)
}
