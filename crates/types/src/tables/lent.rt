// The lent tables and their rows: a member's or a type's row of eight words, read into a struct by
// value and stored from one. A template id of 0 marks an unused row. The readers ask for a row of the table;
// `rows` has those for any number.
ghost use Rattle.std.specs.Prelude.{◌≡◌, ◌+◌, ◌<◌, ◌≤◌, ◌%◌, ◌*◌, length};
ghost use Rattle.std.proofs.lemmas.List.Edits.{sets};
ghost use Rattle.types.specs.inside.tables.Lent.{TyFits};
ghost use Rattle.types.specs.tables.Lent.{ty_word, ty_of_word, bit_word, bit_of_word, flags_of, kind_word};
ghost use Rattle.types.specs.tables.Lent.{kind_of_word};
ghost use Rattle.types.specs.tables.Lent.{member_row, member_at, name_at, type_row, type_at};
ghost use Rattle.types.specs.tables.Limits.{most_types, most_members, most_names};
ghost use Rattle.types.specs.tables.Registry.{no_types, no_members, no_names};

use crate::atomics::atomic::Atomic;
use crate::tables::member::{Member, Span, StructDef, StructKind, Ty};
use words::copy;

// How many types, members and bytes of names the tables hold; a row is eight words.
pub const TYPES: usize = 200;

pub const TYPE_WORDS: usize = 8;

pub const MEMBERS: usize = 2000;

pub const MEMBER_WORDS: usize = 8;

pub const NAME_BYTES: usize = 32768;

// A public call that reads two of the tables is lent these two; one that reads or writes all three is lent `Tables`.
pub type TypeTable = [u32; TYPES * TYPE_WORDS];

pub type MemberTable = [u32; MEMBERS * MEMBER_WORDS];

pub type NameTable = [u8; NAME_BYTES];

// Tables of no types, as a caller begins with.
pub fn no_types() -> TypeTable
    ensures { result ≡ no_types }
{
    [0; TYPES * TYPE_WORDS]
}

pub fn no_members() -> MemberTable
    ensures { result ≡ no_members }
{
    [0; MEMBERS * MEMBER_WORDS]
}

pub fn no_names() -> NameTable
    ensures { result ≡ no_names }
{
    [0; NAME_BYTES]
}

// The three tables together, as a program holds them.
#[derive(Clone, Copy, Debug, PartialEq, Eq)]
pub struct Tables {
    pub types: TypeTable,
    pub members: MemberTable,
    pub names: NameTable,
}

impl Tables {
    // Tables of no types.
    pub fn new() -> Tables
        ensures types { result.types ≡ no_types }
        ensures members { result.members ≡ no_members }
        ensures names { result.names ≡ no_names }
    {
        Tables {
            types: no_types(),
            members: no_members(),
            names: no_names(),
        }
    }
}

// The word of a type: an atomic's place among the fifteen, or 0x8000 plus a structure's number.
fn ty_word(ty: Ty) -> u32
    requires { TyFits ty }
    ensures { result ≡ ty_word ty }
{
    match ty {
        Ty::Atomic(a) => a.num() as u32,
        Ty::Struct(n) => 0x8000 + n as u32,
    }
}

// The same as it stands in a scratch of found types.
pub fn word_of(ty: Ty) -> u16
    requires { TyFits ty }
    ensures { result ≡ ty_word ty }
{
    ty_word(ty) as u16
}

pub fn ty_of(w: u32) -> Ty
    ensures { result ≡ ty_of_word w }
{
    if w < 0x8000 {
        Ty::Atomic(Atomic::at(w as usize))
    } else {
        Ty::Struct((w - 0x8000) as usize)
    }
}

// 0, or one more than the bit.
fn bit_word(bit: Option<u8>) -> u32
    ensures { result ≡ bit_word bit }
{
    match bit {
        None => 0,
        Some(k) => u32::from(k) + 1,
    }
}

// Any word reads as no bit or as one of the eight.
fn bit_of(w: u32) -> Option<u8>
    ensures { result ≡ bit_of_word w }
{
    if w == 0 {
        None
    } else {
        Some(((w - 1) % 8) as u8)
    }
}

// 1 for hidden, and 2 for local.
fn flags_word(hidden: bool, local: bool) -> u32
    ensures { result ≡ flags_of hidden local }
{
    u32::from(hidden) + 2 * u32::from(local)
}

fn kind_word(kind: StructKind) -> u32
    ensures { result ≡ kind_word kind }
{
    match kind {
        StructKind::Udt => 0,
        StructKind::Predefined => 1,
        StructKind::Str => 2,
        StructKind::Aoi => 3,
    }
}

#[tactic(auto, unfolding(crate::specs::tables::Lent::kind_of_word))]
fn kind_of(w: u32) -> StructKind
    ensures { result ≡ kind_of_word w }
{
    match w {
        1 => StructKind::Predefined,
        2 => StructKind::Str,
        3 => StructKind::Aoi,
        _ => StructKind::Udt,
    }
}

// The member that a row holds.
pub fn member_row(members: &MemberTable, row: usize) -> Member
    requires { row < most_members }
    ensures { result ≡ member_at members.now row }
{
    let at = MEMBER_WORDS * row;
    let flags = members[at + 6];
    Member {
        ty: ty_of(members[at + 2]),
        count: members[at + 3],
        offset: members[at + 4],
        bit: bit_of(members[at + 5]),
        hidden: flags % 2 == 1,
        local: flags / 2 % 2 == 1,
        access: (members[at + 7] % 256) as u8,
    }
}

// Where the name of the member in a row stands.
pub fn name_row(members: &MemberTable, row: usize) -> Span
    requires { row < most_members }
    ensures { result ≡ name_at members.now row }
{
    let at = MEMBER_WORDS * row;
    Span {
        at: members[at],
        long: members[at + 1],
    }
}

// Stores a member's row; the other rows stay.
pub fn put_member(members: &mut MemberTable, row: usize, name: Span, m: Member)
    requires { (row < most_members) × TyFits m.ty }
    ensures { members.new ≡ sets members.old (8 * row) (member_row name m) }
{
    let at = MEMBER_WORDS * row;
    members[at..at + MEMBER_WORDS].copy_from_slice(&[
        name.at,
        name.long,
        ty_word(m.ty),
        m.count,
        m.offset,
        bit_word(m.bit),
        flags_word(m.hidden, m.local),
        u32::from(m.access),
    ]);
}

// The structure that a row holds.
pub fn type_row(types: &TypeTable, i: usize) -> StructDef
    requires { i < most_types }
    ensures { result ≡ type_at types.now i }
{
    let at = TYPE_WORDS * i;
    StructDef {
        name: Span {
            at: types[at],
            long: types[at + 1],
        },
        id: (types[at + 2] % 65536) as u16,
        handle: (types[at + 3] % 65536) as u16,
        size: types[at + 4],
        kind: kind_of(types[at + 5]),
        first: types[at + 6],
        count: types[at + 7],
    }
}

// Stores a structure's row; the other rows stay.
pub fn put_type(types: &mut TypeTable, i: usize, d: StructDef)
    requires { i < most_types }
    ensures { types.new ≡ sets types.old (8 * i) (type_row d) }
{
    let at = TYPE_WORDS * i;
    types[at..at + TYPE_WORDS].copy_from_slice(&[
        d.name.at,
        d.name.long,
        u32::from(d.id),
        u32::from(d.handle),
        d.size,
        kind_word(d.kind),
        d.first,
        d.count,
    ]);
}

// Bytes among the names, from a place on; the other bytes stay.
pub fn put_bytes(names: &mut NameTable, at: usize, s: &[u8])
    requires { at + length s.now ≤ most_names }
    ensures { names.new ≡ sets names.old at s.now }
{
    copy(names, at, s);
}
