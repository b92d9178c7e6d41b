// Structures and their arrays made normal in place (document 01, "Normal image"). Structures call arrays and arrays
// structures; a structure holds only earlier ones, so the number falls.
ghost use Rattle.std.specs.Prelude.{◌≡◌, ◌*◌};
ghost use Rattle.words.specs.Bits.{flat};
ghost use Rattle.types.specs.tables.Lent.{member_at, type_at};
ghost use Rattle.types.specs.tables.Sizes.{sizes_in};
ghost use Rattle.values.specs.inside.normal_image.InPlace.{OnwardTo, PlainRow, made, swept};
ghost use Rattle.values.specs.inside.normal_image.Placed.{Sweepable};
ghost use Rattle.values.specs.inside.writing.Rows.{AllHere, Here, tree_in};
ghost use Rattle.values.specs.reading.Tree.{array};
ghost use Rattle.values.specs.reading.Trees.{members_at};

use crate::normal_image::flags::{keep_flags, put_flags};
use crate::normal_image::leaves::{normal_atomics, normal_text};
use crate::reading::rows::{capacity_at, is_plain, is_string, struct_size, times_of};
use types::{MemberTable, Ty, TypeTable, member_row, type_row};

// A bit for each row of the table of members.
const FLAG_BYTES: usize = 250;

// Structure i, from a byte of the image on.
#[cycle(clearing)]
pub fn normal_struct(
    types: &TypeTable,
    members: &MemberTable,
    i: usize,
    image: &mut [u8],
    base: usize,
)
    requires { Sweepable types.now members.now × Here types.now i base image.old }
    ensures { flat image.new
        ≡ made (tree_in types.now members.now i) (8 * base) (flat image.old) }
{
    let d = type_row(types, i);
    let first = d.first as usize;
    if is_string(d.kind) {
        normal_text(capacity_at(members, first), image, base);
        return;
    }
    let count = d.count as usize;
    let mut kept = [0u8; FLAG_BYTES];
    keep_flags(members, first, count, image, base, &mut kept);
    sweep(types, members, i, image, base);
    put_flags(members, first, count, &kept, image, base);
}

// Its visible members that are no BOOLs made normal, and all between them cleared.
#[cycle(clearing)]
fn sweep(types: &TypeTable, members: &MemberTable, i: usize, image: &mut [u8], base: usize)
    requires { Sweepable types.now members.now × Here types.now i base image.old }
    ensures { flat image.new
        ≡ swept (tree_in types.now members.now) (8 * base) (8 * sizes_in types.now i)
        (members_at members.now (type_at types.now i).first
        (type_at types.now i).count) 0 (flat image.old) }
{
    let d = type_row(types, i);
    let first = d.first as usize;
    let mut c = 0;
    for k in 0..d.count as usize {
        if is_plain(members, first + k) {
            c = normal_member(types, members, i, first + k, image, base, c);
        }
    }
    image[base + c..base + d.size as usize].fill(0);
}

// The member in a row of structure i, which begins at `base`; what is between byte c of it and the member is cleared.
// The byte after the member.
#[cycle(clearing)]
fn normal_member(
    types: &TypeTable,
    members: &MemberTable,
    i: usize,
    row: usize,
    image: &mut [u8],
    base: usize,
    c: usize,
) -> usize
    requires { Sweepable types.now members.now × (PlainRow types.now members.now i row c
        × Here types.now i base image.old) }
    ensures { OnwardTo (tree_in types.now members.now) base c
        (member_at members.now row) image.old image.new result }
{
    let m = member_row(members, row);
    let start = m.offset as usize;
    let count = m.count as usize;
    image[base + c..base + start].fill(0);
    match m.ty {
        Ty::Atomic(a) => {
            normal_atomics(a, count, image, base + start);
            start + a.size() as usize * times_of(count)
        }
        Ty::Struct(t) if count == 0 => {
            normal_struct(types, members, t, image, base + start);
            start + struct_size(types, t)
        }
        Ty::Struct(t) => {
            normal_elements(types, members, t, count, image, base + start);
            start + struct_size(types, t) * count
        }
    }
}

// An array of structures i; elements of no bytes are not walked, however many there are.
#[cycle(clearing)]
pub fn normal_elements(
    types: &TypeTable,
    members: &MemberTable,
    i: usize,
    count: usize,
    image: &mut [u8],
    base: usize,
)
    requires { Sweepable types.now members.now × AllHere types.now i count base image.old }
    ensures { flat image.new
        ≡ made (array count (tree_in types.now members.now i)) (8 * base)
        (flat image.old) }
{
    let size = struct_size(types, i);
    if size == 0 {
        return;
    }
    for e in 0..count {
        normal_struct(types, members, i, image, base + size * e);
    }
}
