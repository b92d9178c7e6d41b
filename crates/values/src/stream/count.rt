// The count of a reading (document 01, "Value stream"): how many entries a value has, and whether one is a text. It
// depends on the type alone, so that an array takes one product. It counts on from what was counted before, and stops
// where `most` is passed: the sum is then any number above `most`.
ghost use Rattle.std.specs.Prelude.{ℕ, ◌+◌, ◌<◌, ◌≤◌, Bool};
ghost use Rattle.types.specs.tables.Lent.{member_at};
ghost use Rattle.types.specs.tables.Limits.{most_types, most_members};
ghost use Rattle.values.specs.inside.reading.Walk.{atomics_out, leaf_out, member_by, members_by, struct_out};
ghost use Rattle.values.specs.inside.reading.Walk.{structs_by};
ghost use Rattle.values.specs.inside.reading.Walkable.{NestedRow, Walkable};
ghost use Rattle.values.specs.inside.stream.Counting.{Counted, TextFree};
ghost use Rattle.values.specs.stream.Stream.{most_bytes};

use crate::reading::rows::{is_nested, is_string, nested_in, times_of};
use types::{Atomic, MemberTable, Ty, TypeTable, member_row, type_row};

// An atomic, or n of them where n is not 0.
pub fn atomic_entries(a: Atomic, n: usize) -> usize
    requires { n ≤ 4294967296 }
    ensures { TextFree (atomics_out a n) result }
{
    if a.is_bit_string() {
        return 2 + 8 * (a.size() as usize * times_of(n));
    }
    if n == 0 {
        return 1;
    }
    2 + n
}

// The same within `most`.
pub fn count_atomics(a: Atomic, n: usize, most: usize) -> usize
    requires { most ≤ most_bytes }
    ensures { (b : Bool) → Counted most 0 (atomics_out a n) b b result }
{
    if most < n {
        return most + 1;
    }
    atomic_entries(a, n)
}

// The member in a row, where it is no structure; the type is looked at first, as `is_nested` did, for pace.
fn leaf_entries(members: &MemberTable, row: usize) -> usize
    requires { row < most_members }
    ensures { ((j : ℕ) → TextFree (leaf_out j (member_at members.now row)) result)
        × (result ≤ 1099511627776) }
{
    let m = member_row(members, row);
    if m.hidden {
        return 0;
    }
    match m.ty {
        Ty::Atomic(a) => match m.bit {
            Some(_) => 2,
            None => 1 + atomic_entries(a, m.count as usize),
        },
        Ty::Struct(_) => match m.bit {
            Some(_) => 2,
            None => 1,
        },
    }
}

// Structure i, or n of it where n is not 0.
#[cycle(counting)]
pub fn count_structs(
    types: &TypeTable,
    members: &MemberTable,
    i: usize,
    n: usize,
    from: usize,
    most: usize,
    texts: &mut bool,
) -> usize
    requires { Walkable types.now members.now
        × ((i < most_types) × ((most ≤ most_bytes) × (from ≤ most + 1))) }
    ensures { Counted most from
        (structs_by types.now members.now
        (struct_out types.now members.now) i n) texts.old texts.new result }
{
    if n == 0 {
        return count_struct(types, members, i, from, most, texts);
    }
    if most < n {
        return most + 1;
    }
    let one = count_struct(types, members, i, 0, most, texts);
    if most < one {
        return most + 1;
    }
    from + 2 + n * one
}

// Structure i.
#[cycle(counting)]
fn count_struct(
    types: &TypeTable,
    members: &MemberTable,
    i: usize,
    from: usize,
    most: usize,
    texts: &mut bool,
) -> usize
    requires { Walkable types.now members.now
        × ((i < most_types) × ((most ≤ most_bytes) × (from ≤ most + 1))) }
    ensures { Counted most from (struct_out types.now members.now i)
        texts.old texts.new result }
{
    let d = type_row(types, i);
    if is_string(d.kind) {
        *texts = true;
        return from + 1;
    }
    count_members(types, members, i, from, most, texts)
}

// Its members. The last one's structure takes the place of this one, so that it costs no call.
#[cycle(counting)]
fn count_members(
    types: &TypeTable,
    members: &MemberTable,
    i: usize,
    from: usize,
    most: usize,
    texts: &mut bool,
) -> usize
    requires { Walkable types.now members.now
        × ((i < most_types) × ((most ≤ most_bytes) × (from ≤ most + 1))) }
    ensures { Counted most from
        (members_by types.now members.now
        (struct_out types.now members.now) i) texts.old texts.new result }
{
    let d = type_row(types, i);
    let first = d.first as usize;
    let n = d.count as usize;
    let mut sum = from + 2;
    for j in 0..n {
        if most < sum {
            return sum;
        }
        let row = first + j;
        if !is_nested(members, row) {
            sum += leaf_entries(members, row);
        } else if j + 1 == n {
            return count_nested(types, members, i, row, sum, most, texts);
        } else {
            sum = count_nested(types, members, i, row, sum, most, texts);
        }
    }
    sum
}

// The structure, or the array of structures, in a row of structure i, with the member's number before it.
#[cycle(counting)]
fn count_nested(
    types: &TypeTable,
    members: &MemberTable,
    i: usize,
    row: usize,
    from: usize,
    most: usize,
    texts: &mut bool,
) -> usize
    requires { Walkable types.now members.now
        × (NestedRow types.now members.now i row × ((most ≤ most_bytes) × (from ≤ most))) }
    ensures { (j : ℕ) → Counted most from
        (member_by types.now members.now (struct_out types.now members.now) j
        (member_at members.now row)) texts.old texts.new result }
{
    let m = nested_in(members, row);
    count_structs(types, members, m.structure, m.count, from + 1, most, texts)
}
