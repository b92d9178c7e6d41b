// The walk of a reading (document 01, "Reading"): the visible members in order, each by its number among all and
// then its value, read from the member's own part of the image. Structures call arrays and arrays structures; a
// structure holds only earlier ones, so the number falls. A leaf, or an array of atomics, takes no such call.
ghost use Rattle.std.specs.Prelude.{◌+◌, ◌*◌, ◌<◌, ◌≤◌, length};
ghost use Rattle.types.specs.tables.Lent.{member_at};
ghost use Rattle.values.specs.inside.reading.Walk.{elements_by, leaf_out, member_by, members_by, struct_out};
ghost use Rattle.values.specs.inside.reading.Walkable.{ImageOf, ImagesOf, NestedRow, RowOf, Walkable};
ghost use Rattle.values.specs.inside.stream.Laying.{EntriesPut, StreamRoom, TokensLaid};

use crate::reading::atomics::put_atomics;
use crate::reading::numbers::truth_of;
use crate::reading::rows::{capacity_at, is_nested, is_string, nested_in, struct_size, times_of};
use crate::reading::texts::put_text;
use crate::stream::entry::put_entry;
use crate::stream::kinds;
use crate::stream::place::Place;
use types::{MemberTable, Ty, TypeTable, member_row, type_row};
use words::bit_at;

// The member in a row of structure i, where it is no structure; j is its number.
fn read_leaf(
    types: &TypeTable,
    members: &MemberTable,
    i: usize,
    row: usize,
    j: usize,
    image: &[u8],
    out: &mut [u8],
    at: usize,
) -> usize
    requires row_of { RowOf types.now members.now i row × ImageOf types.now i image.now }
    requires out_room { at + 12 * length (leaf_out j (member_at members.now row) image.now) ≤ length out.old }
    ensures { EntriesPut out.old at
        (leaf_out j (member_at members.now row) image.now) out.new result }
{
    let m = member_row(members, row);
    if m.hidden {
        return at;
    }
    put_entry(out, at, kinds::MEMBER, j as u64);
    let p = at + 12;
    let start = m.offset as usize;
    let n = m.count as usize;
    match m.bit {
        Some(b) => {
            put_entry(out, p, kinds::BOOL, truth_of(bit_at(image, start, b)));
            p + 12
        }
        None => match m.ty {
            Ty::Atomic(a) => {
                let end = start + a.size() as usize * times_of(n);
                put_atomics(a, n, &image[start..end], out, p)
            }
            Ty::Struct(_) => p,
        },
    }
}

// Structure i from an image of its size.
#[cycle(reading)]
pub fn read_struct(
    types: &TypeTable,
    members: &MemberTable,
    i: usize,
    image: &[u8],
    out: &mut [u8],
    base: usize,
    at: usize,
    text: usize,
) -> Place
    requires walkable { Walkable types.now members.now × ImageOf types.now i image.now }
    requires stream_room { StreamRoom (length out.old) base at text
        (struct_out types.now members.now i image.now) }
    ensures { TokensLaid out.old base at text
        (struct_out types.now members.now i image.now) out.new result }
{
    let d = type_row(types, i);
    if is_string(d.kind) {
        let capacity = capacity_at(members, d.first as usize);
        put_text(capacity, image, out, base, at, text)
    } else {
        read_members(types, members, i, image, out, base, at, text)
    }
}

// Its members, between the brackets.
#[cycle(reading)]
fn read_members(
    types: &TypeTable,
    members: &MemberTable,
    i: usize,
    image: &[u8],
    out: &mut [u8],
    base: usize,
    at: usize,
    text: usize,
) -> Place
    requires walkable { Walkable types.now members.now × ImageOf types.now i image.now }
    requires stream_room { StreamRoom (length out.old) base at text
        (members_by types.now members.now (struct_out types.now members.now) i image.now) }
    ensures { TokensLaid out.old base at text
        (members_by types.now members.now (struct_out types.now members.now) i
        image.now) out.new result }
{
    let d = type_row(types, i);
    let first = d.first as usize;
    put_entry(out, at, kinds::OPEN, 0);
    let mut p = at + 12;
    let mut t = text;
    for j in 0..d.count as usize {
        let row = first + j;
        if is_nested(members, row) {
            let next = read_nested(types, members, i, row, j, image, out, base, p, t);
            p = next.at;
            t = next.text;
        } else {
            p = read_leaf(types, members, i, row, j, image, out, p);
        }
    }
    put_entry(out, p, kinds::CLOSE, 0);
    Place {
        at: p + 12,
        text: t,
    }
}

// The structure, or the array of structures, in a row of structure i, from the image of that structure; j is the
// member's number.
#[cycle(reading)]
fn read_nested(
    types: &TypeTable,
    members: &MemberTable,
    i: usize,
    row: usize,
    j: usize,
    image: &[u8],
    out: &mut [u8],
    base: usize,
    at: usize,
    text: usize,
) -> Place
    requires walkable { Walkable types.now members.now
        × (NestedRow types.now members.now i row
        × ImageOf types.now i image.now) }
    requires stream_room { StreamRoom (length out.old) base at text
        (member_by types.now members.now (struct_out types.now members.now) j
        (member_at members.now row)
        image.now) }
    ensures { TokensLaid out.old base at text
        (member_by types.now members.now (struct_out types.now members.now) j
        (member_at members.now row) image.now) out.new result }
{
    put_entry(out, at, kinds::MEMBER, j as u64);
    let m = nested_in(members, row);
    let size = struct_size(types, m.structure);
    let start = m.start;
    if m.count == 0 {
        let end = start + size;
        return read_struct(
            types,
            members,
            m.structure,
            &image[start..end],
            out,
            base,
            at + 12,
            text,
        );
    }
    let end = start + size * m.count;
    read_elements(
        types,
        members,
        m.structure,
        m.count,
        &image[start..end],
        out,
        base,
        at + 12,
        text,
    )
}

// n structures i as an array.
#[cycle(reading)]
pub fn read_elements(
    types: &TypeTable,
    members: &MemberTable,
    i: usize,
    n: usize,
    image: &[u8],
    out: &mut [u8],
    base: usize,
    at: usize,
    text: usize,
) -> Place
    requires walkable { Walkable types.now members.now × ImagesOf types.now i n image.now }
    requires stream_room { StreamRoom (length out.old) base at text
        (elements_by types.now members.now (struct_out types.now members.now) i n
        image.now) }
    ensures { TokensLaid out.old base at text
        (elements_by types.now members.now (struct_out types.now members.now)
        i n image.now) out.new result }
{
    let size = struct_size(types, i);
    put_entry(out, at, kinds::ARRAY_OPEN, 0);
    let mut p = at + 12;
    let mut t = text;
    for k in 0..n {
        let start = size * k;
        let end = start + size;
        let next = read_struct(types, members, i, &image[start..end], out, base, p, t);
        p = next.at;
        t = next.text;
    }
    put_entry(out, p, kinds::ARRAY_CLOSE, 0);
    Place {
        at: p + 12,
        text: t,
    }
}
