// Reading (document 01, "Reading"): the value stream of a tag's bytes. Everything is counted before the first byte is
// written, so that a refusal leaves the buffer as it was.
ghost use Rattle.std.specs.Prelude.{◌≡◌, ◌+◌, ◌≤◌, min, false, [], length};
ghost use Rattle.types.specs.inside.tables.Lent.{TyFits};
ghost use Rattle.types.specs.layout.Placing.{times};
ghost use Rattle.types.specs.tables.Kept.{KeptRows};
ghost use Rattle.values.specs.inside.reading.Read.{StreamWritten};
ghost use Rattle.values.specs.inside.reading.Walk.{value_out};
ghost use Rattle.values.specs.inside.reading.Walkable.{ImagesOf, ValueImage, Walkable};
ghost use Rattle.values.specs.inside.stream.Counting.{Counted, Texts};
ghost use Rattle.values.specs.inside.stream.Laying.{StreamRoom, TokensLaid};
ghost use Rattle.values.specs.reading.Read.{Answered};
ghost use Rattle.values.specs.stream.Stream.{most_bytes, bodies};

use crate::reading::atomics::put_atomics;
use crate::reading::images::image_fit;
use crate::reading::walk::{read_elements, read_struct};
use crate::stream::count::{count_atomics, count_structs};
use crate::stream::form::MOST_BYTES;
use crate::stream::lengths::{text_elements, text_struct};
use crate::stream::place::Place;
use types::{MemberTable, Refusal, Ty, TypeTable};
use words::Word;

// How many entries a value has, and whether one is a text.
fn count_value(
    types: &TypeTable,
    members: &MemberTable,
    ty: Ty,
    n: usize,
    most: usize,
    texts: &mut bool,
) -> usize
    requires { Walkable types.now members.now × (TyFits ty × (most ≤ most_bytes)) }
    ensures { Counted most 0 (value_out types.now members.now ty n)
        texts.old texts.new result }
{
    match ty {
        Ty::Atomic(a) => count_atomics(a, n, most),
        Ty::Struct(i) => count_structs(types, members, i, n, 0, most, texts),
    }
}

// How many bytes of text a structure has, or an array of structures.
fn text_structs(
    types: &TypeTable,
    members: &MemberTable,
    i: usize,
    n: usize,
    image: &[u8],
    room: usize,
) -> usize
    requires { Walkable types.now members.now × (ImagesOf types.now i (times n) image.now
        × (room ≤ most_bytes)) }
    ensures { Texts room (value_out types.now members.now (Ty.Struct i) n
        image.now) result }
{
    if n == 0 {
        text_struct(types, members, i, image, room)
    } else {
        text_elements(types, members, i, n, image, room)
    }
}

// And a value, of which is known whether it has any.
fn text_value(
    types: &TypeTable,
    members: &MemberTable,
    ty: Ty,
    n: usize,
    image: &[u8],
    room: usize,
    texts: bool,
) -> usize
    requires walkable { Walkable types.now members.now × ((room ≤ most_bytes)
        × ValueImage types.now ty n image.now) }
    requires textless { texts ≡ false → bodies (value_out types.now members.now ty n image.now) ≡ [] }
    ensures { Texts room (value_out types.now members.now ty n image.now) result }
{
    if !texts {
        return 0;
    }
    match ty {
        Ty::Atomic(_) => 0,
        Ty::Struct(i) => text_structs(types, members, i, n, image, room),
    }
}

// A structure, or an array of structures.
fn read_structs(
    types: &TypeTable,
    members: &MemberTable,
    i: usize,
    n: usize,
    image: &[u8],
    out: &mut [u8],
    base: usize,
) -> Place
    requires walkable { Walkable types.now members.now × ImagesOf types.now i (times n) image.now }
    requires stream_room { StreamRoom (length out.old) base 4 0
        (value_out types.now members.now (Ty.Struct i) n image.now) }
    ensures { TokensLaid out.old base 4 0
        (value_out types.now members.now (Ty.Struct i) n image.now) out.new
        result }
{
    if n == 0 {
        read_struct(types, members, i, image, out, base, 4, 0)
    } else {
        read_elements(types, members, i, n, image, out, base, 4, 0)
    }
}

// The entries and the texts of a value.
fn read_value(
    types: &TypeTable,
    members: &MemberTable,
    ty: Ty,
    n: usize,
    image: &[u8],
    out: &mut [u8],
    base: usize,
) -> Place
    requires walkable { Walkable types.now members.now × ValueImage types.now ty n image.now }
    requires stream_room { StreamRoom (length out.old) base 4 0
        (value_out types.now members.now ty n image.now) }
    ensures { TokensLaid out.old base 4 0
        (value_out types.now members.now ty n image.now) out.new result }
{
    match ty {
        Ty::Atomic(a) => Place {
            at: put_atomics(a, n, image, out, 4),
            text: 0,
        },
        Ty::Struct(i) => read_structs(types, members, i, n, image, out, base),
    }
}

// The count of the entries, the entries and the texts; the bytes past them stay. The stream's length, where there is
// room for it.
fn read_within(
    types: &TypeTable,
    members: &MemberTable,
    ty: Ty,
    n: usize,
    image: &[u8],
    out: &mut [u8],
    room: usize,
) -> Result<usize, Refusal>
    requires walkable { Walkable types.now members.now × ValueImage types.now ty n image.now }
    requires most_room { room + 4 ≡ min (length out.old) most_bytes }
    ensures { StreamWritten types.now members.now ty n image.now
        out.old result out.new }
{
    let most = room / 12;
    let mut texts = false;
    let entries = count_value(types, members, ty, n, most, &mut texts);
    if most < entries {
        return Err(Refusal::NoRoom);
    }
    let left = room - 12 * entries;
    let text = text_value(types, members, ty, n, image, left, texts);
    if left < text {
        return Err(Refusal::NoRoom);
    }
    (entries as u32).store(out, 0);
    let base = 4 + 12 * entries;
    read_value(types, members, ty, n, image, out, base);
    Ok(base + text)
}

// The stream of a value of a type, of `count` elements where `count` is not 0, from the buffer's start on: its length;
// or 15, 14 or 16, and nothing is written.
pub fn read(
    types: &TypeTable,
    members: &MemberTable,
    ty: Ty,
    count: u64,
    image: &[u8],
    out: &mut [u8],
) -> Result<usize, Refusal>
    requires { KeptRows types.now members.now }
    ensures { Answered types.now members.now ty count image.now
        out.old result out.new }
{
    image_fit(types, ty, count, image.len())?;
    let most = out.len().min(MOST_BYTES);
    if most < 4 {
        return Err(Refusal::NoRoom);
    }
    read_within(types, members, ty, count as usize, image, out, most - 4)
}
