// The layouts that no book declares (document 01, "Layout", String and Predefined): the rows and the names
// of a string's parts and of the three control types' parts.
ghost use Rattle.std.specs.Prelude.{◌≡◌, ◌+◌, ◌*◌, ◌/◌, ◌≤◌, length};
ghost use Rattle.std.proofs.lemmas.List.Edits.{sets};
ghost use Rattle.types.specs.inside.layout.Structs.{control_of, pairs, BitsFit, ControlFits};
ghost use Rattle.types.specs.layout.Structs.{names_of, rows_of, dint_at, data_of, string_parts, string_size, ctl_at};
ghost use Rattle.types.specs.layout.Structs.{status_at, status_parts};
ghost use Rattle.types.specs.tables.Limits.{most_members, most_names};

use crate::atomics::atomic::Atomic;
use crate::layout::store::put_part;
use crate::tables::lent::{MemberTable, NameTable};
use crate::tables::member::{Member, Ty};

// A visible DINT at an offset.
fn dint_at(offset: u32) -> Member
    ensures { result ≡ dint_at offset }
{
    Member {
        ty: Ty::Atomic(Atomic::DInt),
        count: 0,
        offset,
        bit: None,
        hidden: false,
        local: false,
        access: 0,
    }
}

// A string's bytes, from offset 4 on.
fn data_of(capacity: u32) -> Member
    ensures { result ≡ data_of capacity }
{
    Member {
        ty: Ty::Atomic(Atomic::SInt),
        count: capacity,
        offset: 4,
        bit: None,
        hidden: false,
        local: false,
        access: 0,
    }
}

// A string's two parts, from a row and from a place among the names on.
pub fn put_string(
    members: &mut MemberTable,
    row: usize,
    names: &mut NameTable,
    place: usize,
    capacity: u32,
)
    requires { (row + 2 ≤ most_members) × (place + 7 ≤ most_names) }
    ensures rows { members.new ≡ sets members.old (8 * row)
        (rows_of place (string_parts capacity)) }
    ensures names { names.new ≡ sets names.old place (names_of (string_parts capacity)) }
{
    put_part(members, row, names, place, b"LEN", dint_at(0));
    put_part(
        members,
        row + 1,
        names,
        place + 3,
        b"DATA",
        data_of(capacity),
    );
}

// A string's size.
pub fn string_size(capacity: u32) -> u32
    requires { capacity ≤ 67108860 }
    ensures { result ≡ string_size capacity }
{
    (4 + capacity).next_multiple_of(4)
}

// The hidden word that holds a control type's status bits.
fn ctl_at() -> Member
    ensures { result ≡ ctl_at }
{
    Member {
        hidden: true,
        ..dint_at(0)
    }
}

// The i-th status bit, from bit 31 of the word downwards.
fn status_at(i: usize) -> Member
    requires { i ≤ 31 }
    ensures { result ≡ status_at i }
{
    let down = 31 - i;
    Member {
        ty: Ty::Atomic(Atomic::Bool),
        count: 0,
        offset: (down / 8) as u32,
        bit: Some((down % 8) as u8),
        hidden: false,
        local: false,
        access: 0,
    }
}

// The status bits of a control type, whose names are two bytes each.
fn put_bits(members: &mut MemberTable, row: usize, names: &mut NameTable, place: usize, bits: &[u8])
    requires { BitsFit bits.now row place }
    ensures rows { members.new ≡ sets members.old (8 * row)
        (rows_of place (status_parts 0 (pairs bits.now 0 (length bits.now / 2)))) }
    ensures names { names.new ≡ sets names.old place
        (names_of (status_parts 0 (pairs bits.now 0 (length bits.now / 2)))) }
{
    for (i, name) in bits.chunks_exact(2).enumerate() {
        put_part(members, row + i, names, place + 2 * i, name, status_at(i));
    }
}

// A control type's parts: the hidden word, two words whose names are three bytes each, and the status bits.
pub fn put_control(
    members: &mut MemberTable,
    row: usize,
    names: &mut NameTable,
    place: usize,
    words: &[u8],
    bits: &[u8],
)
    requires { ControlFits words.now bits.now row place }
    ensures rows { members.new ≡ sets members.old (8 * row)
        (rows_of place (control_of words.now bits.now)) }
    ensures names { names.new ≡ sets names.old place
        (names_of (control_of words.now bits.now)) }
{
    put_part(members, row, names, place, b"CTL", ctl_at());
    put_part(members, row + 1, names, place + 3, &words[..3], dint_at(4));
    put_part(members, row + 2, names, place + 6, &words[3..6], dint_at(8));
    put_bits(members, row + 3, names, place + 9, bits);
}
