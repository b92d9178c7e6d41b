// Structures and their arrays set in an image (document 01, "Writing"), once the check has accepted every entry.
// Structures call arrays and arrays structures; a structure holds only earlier ones, so the number falls.
ghost use Rattle.std.specs.Prelude.{◌≡◌, ◌+◌, ◌*◌, true};
ghost use Rattle.words.specs.Bits.{flat};
ghost use Rattle.types.specs.layout.Laid.{first_bit};
ghost use Rattle.types.specs.tables.Lent.{member_at};
ghost use Rattle.types.specs.tables.Sizes.{sizes_in};
ghost use Rattle.values.specs.inside.reading.Walkable.{NestedRow, Walkable};
ghost use Rattle.values.specs.inside.writing.Passes.{Applied, accepted, left_at};
ghost use Rattle.values.specs.inside.writing.Rows.{AllHere, Here, branches_in, member_tree, tree_in};
ghost use Rattle.values.specs.reading.Tree.{array, struct};
ghost use Rattle.values.specs.stream.Form.{stream_ok};
ghost use Rattle.values.specs.writing.Writing.{write};

use crate::reading::rows::{capacity_at, is_nested, is_string, nested_in, struct_size};
use crate::stream::kinds;
use crate::stream::tokens::{kind_of, payload_of};
use crate::writing::sets::{set_leaf, set_text};
use types::{MemberTable, TypeTable, type_row};

// Structure i, from a byte of the image on.
#[cycle(applying)]
pub fn apply_struct(
    types: &TypeTable,
    members: &MemberTable,
    i: usize,
    s: &[u8],
    k: usize,
    image: &mut [u8],
    base: usize,
) -> usize
    requires walkable { Walkable types.now members.now × (Here types.now i base image.old
        × (stream_ok s.now ≡ true)) }
    requires right { accepted (write (tree_in types.now members.now i) (8 * base) (left_at s.now k)
        (flat image.old))
        ≡ true }
    ensures { Applied s.now k result image.old image.new
        (write (tree_in types.now members.now i) (8 * base) (left_at s.now k)) }
{
    let d = type_row(types, i);
    if is_string(d.kind) {
        let capacity = capacity_at(members, d.first as usize);
        return set_text(capacity, s, k, image, base);
    }
    apply_members(types, members, i, s, k, image, base)
}

// Its members, in the order of the entries, so that a later one wins.
#[cycle(applying)]
fn apply_members(
    types: &TypeTable,
    members: &MemberTable,
    i: usize,
    s: &[u8],
    k: usize,
    image: &mut [u8],
    base: usize,
) -> usize
    requires walkable { Walkable types.now members.now × (Here types.now i base image.old
        × (stream_ok s.now ≡ true)) }
    requires right { accepted (write (struct (8 * sizes_in types.now i)
        (branches_in types.now members.now i))
        (8 * base) (left_at s.now k) (flat image.old)) ≡ true }
    ensures { Applied s.now k result image.old image.new
        (write (struct (8 * sizes_in types.now i)
        (branches_in types.now members.now i)) (8 * base) (left_at s.now k)) }
{
    if kind_of(s, k) == kinds::NULL {
        return k + 1;
    }
    let first = type_row(types, i).first as usize;
    let mut p = k + 1;
    while kind_of(s, p) != kinds::CLOSE {
        let row = first + payload_of(s, p) as usize;
        p = if is_nested(members, row) {
            apply_nested(types, members, i, row, s, p + 1, image, base)
        } else {
            set_leaf(members, row, s, p + 1, image, base)
        };
    }
    p + 1
}

// The structure, or the array of structures, in a row of structure i, which begins at `base`.
#[cycle(applying)]
fn apply_nested(
    types: &TypeTable,
    members: &MemberTable,
    i: usize,
    row: usize,
    s: &[u8],
    k: usize,
    image: &mut [u8],
    base: usize,
) -> usize
    requires walkable { Walkable types.now members.now
        × (NestedRow types.now members.now i row
        × (Here types.now i base image.old × (stream_ok s.now ≡ true))) }
    requires right { accepted (write (member_tree (tree_in types.now members.now)
        (member_at members.now row))
        (8 * base + first_bit (member_at members.now row)) (left_at s.now k) (flat image.old)) ≡ true }
    ensures { Applied s.now k result image.old image.new
        (write (member_tree (tree_in types.now members.now) (member_at members.now row))
        (8 * base + first_bit (member_at members.now row)) (left_at s.now k)) }
{
    let m = nested_in(members, row);
    let start = base + m.start;
    if m.count == 0 {
        return apply_struct(types, members, m.structure, s, k, image, start);
    }
    apply_elements(types, members, m.structure, m.count, s, k, image, start)
}

// An array of structures i, or null. A walk beside that of `check_elements`, for pace: what was checked is not asked
// again.
#[cycle(applying)]
pub fn apply_elements(
    types: &TypeTable,
    members: &MemberTable,
    i: usize,
    count: usize,
    s: &[u8],
    k: usize,
    image: &mut [u8],
    base: usize,
) -> usize
    requires walkable { Walkable types.now members.now × (AllHere types.now i count base image.old
        × (stream_ok s.now ≡ true)) }
    requires right { accepted (write (array count (tree_in types.now members.now i)) (8 * base)
        (left_at s.now k)
        (flat image.old)) ≡ true }
    ensures { Applied s.now k result image.old image.new
        (write (array count (tree_in types.now members.now i)) (8 * base)
        (left_at s.now k)) }
{
    if kind_of(s, k) == kinds::NULL {
        return k + 1;
    }
    let size = struct_size(types, i);
    let mut p = k + 1;
    for e in 0..count {
        if kind_of(s, p) == kinds::ARRAY_CLOSE {
            return p + 1;
        }
        p = apply_struct(types, members, i, s, p, image, base + size * e);
    }
    p + 1
}
