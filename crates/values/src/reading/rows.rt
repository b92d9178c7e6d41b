// What the walk asks of the tables' rows (document 01, "Layout"): sizes, capacities, and which members are structures.
ghost use Rattle.std.specs.Prelude.{◌≡◌, true, ◌+◌, ◌<◌};
ghost use Rattle.types.specs.layout.Placing.{times};
ghost use Rattle.types.specs.tables.Lent.{member_at};
ghost use Rattle.types.specs.tables.Limits.{most_types, most_members};
ghost use Rattle.types.specs.tables.Sizes.{sizes_in};
ghost use Rattle.values.specs.inside.normal_image.InPlace.{is_plain};
ghost use Rattle.values.specs.inside.reading.Walk.{is_nested};
ghost use Rattle.values.specs.inside.reading.Walkable.{HeldIn};
ghost use Rattle.values.specs.reading.Texts.{capacity_at};
ghost use Rattle.values.specs.reading.Trees.{is_string_kind};

use types::{MemberTable, StructKind, Ty, TypeTable, member_row, type_row};

// A count of 0 is one.
pub fn times_of(n: usize) -> usize
    ensures { result ≡ times n }
{
    n.max(1)
}

// The bytes of structure i.
pub fn struct_size(types: &TypeTable, i: usize) -> usize
    requires { i < most_types }
    ensures { result ≡ sizes_in types.now i }
{
    type_row(types, i).size as usize
}

pub fn is_string(kind: StructKind) -> bool
    ensures { result ≡ is_string_kind kind }
{
    matches!(kind, StructKind::Str)
}

// A string has its capacity in its second row.
pub fn capacity_at(members: &MemberTable, first: usize) -> u32
    requires { first < 1999 }
    ensures { result ≡ capacity_at members.now first }
{
    member_row(members, first + 1).count
}

// A row holds a visible structure, or an array of structures. The type is looked at first, for pace: most rows are
// atomics.
pub fn is_nested(members: &MemberTable, row: usize) -> bool
    requires { row < most_members }
    ensures { result ≡ is_nested (member_at members.now row) }
{
    let m = member_row(members, row);
    match m.ty {
        Ty::Atomic(_) => false,
        Ty::Struct(_) => !m.hidden && m.bit.is_none(),
    }
}

// A structure that a row holds: its number, how many there are of it, 0 for one that is no array, and where in the
// row's own structure it begins.
#[derive(Clone, Copy, Debug, PartialEq, Eq)]
pub struct Nested {
    pub structure: usize,
    pub count: usize,
    pub start: usize,
}

// No row that holds a structure is an atomic's.
pub fn nested_in(members: &MemberTable, row: usize) -> Nested
    requires { (row < most_members) × (is_nested (member_at members.now row) ≡ true) }
    ensures { HeldIn (member_at members.now row) result }
{
    let m = member_row(members, row);
    let Ty::Struct(structure) = m.ty else {
        unreachable!();
    };
    Nested {
        structure,
        count: m.count as usize,
        start: m.offset as usize,
    }
}

// A row holds a visible member that is no BOOL of a host.
pub fn is_plain(members: &MemberTable, row: usize) -> bool
    requires { row < most_members }
    ensures { result ≡ is_plain (member_at members.now row) }
{
    let m = member_row(members, row);
    m.bit.is_none() && !m.hidden
}
