// The bytes of text that a value has (document 01, "Value stream"), from the LEN of each of its strings. It stops as
// soon as the room is passed.
ghost use Rattle.std.specs.Prelude.{ℕ, ◌+◌, ◌*◌, ◌<◌, ◌≤◌};
ghost use Rattle.types.specs.tables.Lent.{member_at};
ghost use Rattle.values.specs.inside.reading.Walk.{elements_by, member_by, members_by, struct_out};
ghost use Rattle.values.specs.inside.reading.Walkable.{ImageOf, ImagesOf, NestedRow, Walkable};
ghost use Rattle.values.specs.inside.stream.Counting.{Texts};
ghost use Rattle.values.specs.stream.Stream.{most_bytes};

use crate::reading::rows::{capacity_at, is_nested, is_string, nested_in, struct_size};
use crate::reading::texts::text_length;
use types::{MemberTable, TypeTable, type_row};

// Structure i.
#[cycle(measuring)]
pub fn text_struct(
    types: &TypeTable,
    members: &MemberTable,
    i: usize,
    image: &[u8],
    room: usize,
) -> usize
    requires { Walkable types.now members.now
        × (ImageOf types.now i image.now × (room ≤ most_bytes)) }
    ensures { Texts room (struct_out types.now members.now i image.now) result }
{
    let d = type_row(types, i);
    if is_string(d.kind) {
        let capacity = capacity_at(members, d.first as usize);
        return text_length(capacity, image);
    }
    text_members(types, members, i, image, room)
}

// Its members. A walk beside that of `count_members`, for pace: an array's entries are one product, and a value without
// texts is not walked for their lengths.
#[cycle(measuring)]
fn text_members(
    types: &TypeTable,
    members: &MemberTable,
    i: usize,
    image: &[u8],
    room: usize,
) -> usize
    requires { Walkable types.now members.now
        × (ImageOf types.now i image.now × (room ≤ most_bytes)) }
    ensures { Texts room
        (members_by types.now members.now (struct_out types.now members.now) i
        image.now) result }
{
    let d = type_row(types, i);
    let first = d.first as usize;
    let n = d.count as usize;
    let mut t = 0;
    for j in 0..n {
        if room < t {
            return t;
        }
        let row = first + j;
        if is_nested(members, row) {
            t += text_nested(types, members, i, row, image, room - t);
        }
    }
    t
}

// The structure, or the array of structures, in a row of structure i, from the image of that structure.
#[cycle(measuring)]
fn text_nested(
    types: &TypeTable,
    members: &MemberTable,
    i: usize,
    row: usize,
    image: &[u8],
    room: usize,
) -> usize
    requires { Walkable types.now members.now × (NestedRow types.now members.now i row
        × (ImageOf types.now i image.now × (room ≤ most_bytes))) }
    ensures { (j : ℕ) → Texts room
        (member_by types.now members.now (struct_out types.now members.now) j
        (member_at members.now row) image.now) result }
{
    let m = nested_in(members, row);
    let size = struct_size(types, m.structure);
    if m.count == 0 {
        return text_struct(
            types,
            members,
            m.structure,
            &image[m.start..m.start + size],
            room,
        );
    }
    let end = m.start + size * m.count;
    text_elements(
        types,
        members,
        m.structure,
        m.count,
        &image[m.start..end],
        room,
    )
}

// n structures i as an array.
#[cycle(measuring)]
pub fn text_elements(
    types: &TypeTable,
    members: &MemberTable,
    i: usize,
    n: usize,
    image: &[u8],
    room: usize,
) -> usize
    requires { Walkable types.now members.now
        × (ImagesOf types.now i n image.now × (room ≤ most_bytes)) }
    ensures { Texts room
        (elements_by types.now members.now (struct_out types.now members.now)
        i n image.now) result }
{
    let size = struct_size(types, i);
    let mut t = 0;
    for k in 0..n {
        if room < t {
            return t;
        }
        let start = size * k;
        t += text_struct(types, members, i, &image[start..start + size], room - t);
    }
    t
}
