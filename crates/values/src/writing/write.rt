// Writing (document 01, "Writing"): the entries of a value stream set in a tag's bytes. Every entry is checked before
// the first byte is set, so that a refusal leaves the image as it was.
ghost use Rattle.std.specs.Prelude.{◌≡◌, ◌*◌, ◌^◌, ◌<◌, true};
ghost use Rattle.words.specs.Bits.{flat};
ghost use Rattle.types.specs.inside.tables.Lent.{TyFits};
ghost use Rattle.types.specs.layout.Placing.{times};
ghost use Rattle.types.specs.tables.Kept.{KeptRows};
ghost use Rattle.types.specs.tables.Sizes.{size_in, sizes_in};
ghost use Rattle.values.specs.inside.reading.Walkable.{ValueImage, Walkable};
ghost use Rattle.values.specs.inside.writing.Passes.{Applied, CheckedFrom, WellFormed, accepted, left_at};
ghost use Rattle.values.specs.inside.writing.Written.{Entered};
ghost use Rattle.values.specs.reading.Trees.{known_in, tree_of_value};
ghost use Rattle.values.specs.stream.Form.{stream_ok};
ghost use Rattle.values.specs.writing.Writing.{write as write_in};
ghost use Rattle.values.specs.writing.Written.{Done};

use crate::reading::images::image_fit;
use crate::stream::form::stream_ok;
use crate::writing::apply::{apply_elements, apply_struct};
use crate::writing::check::{check_elements, check_struct};
use crate::writing::fits::check_atomics;
use crate::writing::sets::set_atomics;
use types::{MemberTable, Refusal, Ty, TypeTable};
use words::Word;

// The check of a value of n elements, or of one where n is 0.
fn check_value(
    types: &TypeTable,
    members: &MemberTable,
    ty: Ty,
    n: usize,
    s: &[u8],
    entries: usize,
) -> Result<usize, Refusal>
    requires walkable { Walkable types.now members.now × (TyFits ty
        × (size_in (sizes_in types.now) ty * times n < 2 ^ 64)) }
    requires well_formed { WellFormed s.now entries }
    ensures { CheckedFrom s.now 0 result
        (write_in (tree_of_value (known_in types.now members.now) ty n) 0
        (left_at s.now 0)) }
{
    match ty {
        Ty::Atomic(a) => check_atomics(a, n, s, entries, 0),
        Ty::Struct(i) => {
            if n == 0 {
                check_struct(types, members, i, s, entries, 0)
            } else {
                check_elements(types, members, i, n, s, entries, 0)
            }
        }
    }
}

// And the value set in its image, once it is accepted.
fn apply_value(
    types: &TypeTable,
    members: &MemberTable,
    ty: Ty,
    n: usize,
    s: &[u8],
    image: &mut [u8],
) -> usize
    requires walkable { Walkable types.now members.now × (ValueImage types.now ty n image.old
        × (stream_ok s.now ≡ true)) }
    requires right { accepted (write_in (tree_of_value (known_in types.now members.now) ty n) 0
        (left_at s.now 0)
        (flat image.old)) ≡ true }
    ensures { Applied s.now 0 result image.old image.new
        (write_in (tree_of_value (known_in types.now members.now) ty n) 0
        (left_at s.now 0)) }
{
    match ty {
        Ty::Atomic(a) => set_atomics(a, n, s, 0, image, 0),
        Ty::Struct(i) => {
            if n == 0 {
                apply_struct(types, members, i, s, 0, image, 0)
            } else {
                apply_elements(types, members, i, n, s, 0, image, 0)
            }
        }
    }
}

// The entries of a stream whose form is good.
fn write_entries(
    types: &TypeTable,
    members: &MemberTable,
    ty: Ty,
    n: usize,
    s: &[u8],
    image: &mut [u8],
) -> Result<(), Refusal>
    requires { Walkable types.now members.now × (ValueImage types.now ty n image.old
        × (stream_ok s.now ≡ true)) }
    ensures { Entered types.now members.now ty n s.now image.old result
        image.new }
{
    let entries = u32::load(s, 0) as usize;
    let next = check_value(types, members, ty, n, s, entries)?;
    if next < entries {
        return Err(Refusal::EntryMisfit(next as u32));
    }
    apply_value(types, members, ty, n, s, image);
    Ok(())
}

// Sets the values of a stream in an image of a type, of `count` elements where `count` is not 0; or refuses with 15, 14
// or 17, or at the first bad entry with 18 to 21 and its number, and the image is as it was.
pub fn write(
    types: &TypeTable,
    members: &MemberTable,
    ty: Ty,
    count: u64,
    s: &[u8],
    image: &mut [u8],
) -> Result<(), Refusal>
    requires { KeptRows types.now members.now }
    ensures { Done types.now members.now ty count s.now image.old result
        image.new }
{
    image_fit(types, ty, count, image.len())?;
    if !stream_ok(s) {
        return Err(Refusal::StreamMalformed);
    }
    write_entries(types, members, ty, count as usize, s, image)
}
