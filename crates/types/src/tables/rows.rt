// Rows of the tables for any number (document 01, "Declaration book": the tables): past the last row all is 0.
ghost use Rattle.std.specs.Prelude.{◌≡◌, ◌*◌, ◌≤◌, length};
ghost use Rattle.types.specs.tables.Lent.{member_at, member_said, member_says, name_at, type_at, type_row, type_said};

use crate::atomics::atomic::Atomic;
use crate::tables::lent::{MEMBERS, MemberTable, TYPES, TypeTable, member_row, name_row, type_row};
use crate::tables::member::{Member, Span, StructDef, StructKind, Ty};

// What stands past the last row. The table is lent for its length alone, which the promise speaks of.
fn type_past(types: &[u32], i: usize) -> StructDef
    requires { length types.now ≤ 8 * i }
    ensures { result ≡ type_at types.now i }
{
    StructDef {
        name: Span { at: 0, long: 0 },
        id: 0,
        handle: 0,
        size: 0,
        kind: StructKind::Udt,
        first: 0,
        count: 0,
    }
}

fn member_past(members: &[u32], row: usize) -> Member
    requires { length members.now ≤ 8 * row }
    ensures { result ≡ member_at members.now row }
{
    Member {
        ty: Ty::Atomic(Atomic::Bool),
        count: 0,
        offset: 0,
        bit: None,
        hidden: false,
        local: false,
        access: 0,
    }
}

fn name_past(members: &[u32], row: usize) -> Span
    requires { length members.now ≤ 8 * row }
    ensures { result ≡ name_at members.now row }
{
    Span { at: 0, long: 0 }
}

// The structure that a row holds.
pub fn type_at(types: &TypeTable, i: usize) -> StructDef
    ensures { type_row result ≡ type_said types.now i }
{
    if i < TYPES {
        type_row(types, i)
    } else {
        type_past(types, i)
    }
}

// The member that a row holds.
pub fn member_at(members: &MemberTable, row: usize) -> Member
    ensures { member_says result ≡ member_said members.now row }
{
    if row < MEMBERS {
        member_row(members, row)
    } else {
        member_past(members, row)
    }
}

// Where the name of the member in a row stands.
pub fn name_at(members: &MemberTable, row: usize) -> Span
    ensures { result ≡ name_at members.now row }
{
    if row < MEMBERS {
        name_row(members, row)
    } else {
        name_past(members, row)
    }
}
