// Kind 2: a type of the tables, whole, with its members.
ghost use Rattle.std.specs.Prelude.{◌≡◌, ◌≤◌, cond};
ghost use Rattle.types.specs.tables.Kept.{KeptTables};

use crate::faults::Fault;
use crate::puts::{accept, put, put_count, put_name};
use crate::type_words::word_of_ty;
use types::{
    Member, MemberTable, StructDef, StructKind, Tables, member_at, name_at, object_definition_size,
    template_len, type_at, waste,
};
use words::Word;

// The flags of a member, added up.
const HIDDEN: u8 = 1;

const LOCAL: u8 = 2;

// What stands for no bit.
const NO_BIT: u8 = 255;

fn kind_byte(kind: StructKind) -> u8 {
    match kind {
        StructKind::Udt => 0,
        StructKind::Predefined => 1,
        StructKind::Str => 2,
        StructKind::Aoi => 3,
    }
}

// A flag's byte is the number where it is set.
fn number_if(set: bool, number: u8) -> u8
    ensures is { result ≡ cond set number 0 }
    ensures most { result ≤ number }
{
    if set { number } else { 0 }
}

// A member's fields after its name.
fn put_member_fields(m: Member, out: &mut [u8], from: usize) -> usize {
    let flags = number_if(m.hidden, HIDDEN) + number_if(m.local, LOCAL);
    let mut at = put(out, from, word_of_ty(m.ty));
    at = put(out, at, m.count);
    at = put(out, at, m.offset);
    at = put(out, at, m.bit.unwrap_or(NO_BIT));
    at = put(out, at, flags);
    put(out, at, m.access)
}

// The member in a row.
fn put_member(members: &MemberTable, names: &[u8], row: usize, out: &mut [u8], at: usize) -> usize {
    let next = put_name(out, at, names, name_at(members, row));
    put_member_fields(member_at(members, row), out, next)
}

// The members of a structure, with their number before them.
fn put_members(
    members: &MemberTable,
    names: &[u8],
    d: StructDef,
    out: &mut [u8],
    from: usize,
) -> usize {
    let first = d.first as usize;
    let mut at = put_count(out, from, d.count);
    for row in first..first + d.count as usize {
        at = put_member(members, names, row, out, at);
    }
    at
}

// A structure's own fields, to its kind.
fn put_row(names: &[u8], d: StructDef, out: &mut [u8], from: usize) -> usize {
    let mut at = put_name(out, from, names, d.name);
    at = put(out, at, d.id);
    at = put(out, at, d.handle);
    at = put(out, at, d.size);
    put(out, at, kind_byte(d.kind))
}

// The structure with a number, and what is computed of it.
pub fn describe(rest: &[u8], tables: &Tables, out: &mut [u8]) -> Result<usize, Fault>
    requires { KeptTables tables.now }
{
    if rest.len() < 2 {
        return Err(Fault::NotAQuestion);
    }
    let i = usize::from(u16::load(rest, 0));
    let bytes = template_len(tables, i)?;
    let bits = waste(&tables.types, &tables.members, i)?;
    let d = type_at(&tables.types, i);
    let mut at = accept(out);
    at = put_row(&tables.names, d, out, at);
    at = put(out, at, bytes);
    at = put(out, at, object_definition_size(bytes));
    at = put(out, at, bits);
    Ok(put_members(&tables.members, &tables.names, d, out, at))
}
