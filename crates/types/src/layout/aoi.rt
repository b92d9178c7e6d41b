// AOIs (document 01, "Layout"): the hidden hosts that all BOOLs share, EnableIn and EnableOut, and where
// the declared members then begin.
ghost use Rattle.std.specs.Prelude.{◌≡◌, ◌+◌, ◌*◌, ◌/◌, ◌<◌, ◌≤◌, length};
ghost use Rattle.std.proofs.lemmas.List.Edits.{sets};
ghost use Rattle.types.specs.inside.book.Decls.{decls_from, Found};
ghost use Rattle.types.specs.inside.layout.Passes.{BoolsCounted, HostPut, aoi_parts, PartsPut, StorableAoi};
ghost use Rattle.types.specs.inside.layout.Passes.{measured_aoi, BitHostLong, HostsLong};
ghost use Rattle.types.specs.layout.HostNames.{bit_host_name};
ghost use Rattle.types.specs.layout.Structs.{names_of, rows_of, bools, host_parts, enable_at, enable_parts, aoi_start};
ghost use Rattle.types.specs.layout.Structs.{named_in};
ghost use Rattle.types.specs.tables.Limits.{most_members, most_names};

use crate::atomics::atomic::Atomic;
use crate::book::decls::decl_at;
use crate::layout::decimals::{DIGITS, two_digits};
use crate::layout::measure::{Measured, measure};
use crate::layout::placing::{Cursor, Host, is_bool};
use crate::layout::store::{put_part, store};
use crate::tables::lent::{MemberTable, NameTable, TypeTable, put_bytes, put_member};
use crate::tables::member::{Member, Span, Ty};

// How many of n declared members are BOOLs (dim 0).
pub fn count_bools(types: &TypeTable, book: &[u8], tys: &[u16], at: usize, n: usize) -> u32
    requires { Found book.now tys.now at n × (n ≤ 131072) }
    ensures { BoolsCounted n (decls_from types.now book.now tys.now at 0 n) result }
{
    let mut count = 0;
    for j in 0..n {
        if is_bool(decl_at(types, book, tys, at, j).ty) {
            count += 1;
        }
    }
    count
}

// How many hosts there are for so many declared BOOLs, EnableIn and EnableOut.
pub fn hosts_for(bools: u32) -> u32
    requires { bools ≤ 131072 }
    ensures { result ≡ (2 + bools + 31) / 32 }
{
    (2 + bools).div_ceil(32)
}

// A host's row, and its name among the names; answers the name's length.
fn put_bit_host(
    members: &mut MemberTable,
    row: usize,
    names: &mut NameTable,
    at: usize,
    i: u32,
) -> usize
    requires { (row < most_members) × ((i < 1000000) × (at + length (bit_host_name i) ≤ most_names)) }
    ensures { HostPut i row at members.old names.old
        members.new names.new result }
{
    let d = two_digits(u64::from(i));
    let long = 9 + (DIGITS - d.from);
    put_bytes(names, at, b"__BitHost");
    put_bytes(names, at + 9, &d.bytes[d.from..]);
    put_member(
        members,
        row,
        Span {
            at: at as u32,
            long: long as u32,
        },
        Member {
            ty: Ty::Atomic(Atomic::DInt),
            count: 0,
            offset: 4 * i,
            bit: None,
            hidden: true,
            local: false,
            access: 0,
        },
    );
    long
}

// The rows and names of all h hosts; answers the place after their names.
fn put_hosts(
    members: &mut MemberTable,
    row: usize,
    names: &mut NameTable,
    place: usize,
    h: u32,
) -> usize
    requires { (row + h ≤ most_members) × (place + length (names_of (host_parts 0 h)) ≤ most_names) }
    ensures { PartsPut (host_parts 0 h) row place members.old names.old
        members.new names.new result }
{
    let mut at = place;
    for i in 0..h {
        at += put_bit_host(members, row + i as usize, names, at, i);
    }
    at
}

// EnableIn and EnableOut are the first two BOOLs, with access 2.
fn enable(bit: u8) -> Member
    ensures { result ≡ enable_at bit }
{
    Member {
        ty: Ty::Atomic(Atomic::Bool),
        count: 0,
        offset: 0,
        bit: Some(bit),
        hidden: false,
        local: false,
        access: 2,
    }
}

// Their rows and names; answers the place after their names.
fn put_enables(members: &mut MemberTable, row: usize, names: &mut NameTable, place: usize) -> usize
    requires { (row + 2 ≤ most_members) × (place + 17 ≤ most_names) }
    ensures { PartsPut enable_parts row place members.old names.old
        members.new names.new result }
{
    put_part(members, row, names, place, b"EnableIn", enable(0));
    put_part(members, row + 1, names, place + 8, b"EnableOut", enable(1));
    place + 17
}

// Where the declared members begin: after h hosts, with two BOOLs placed.
pub fn aoi_start(h: u32) -> Cursor
    requires { h ≤ 131072 }
    ensures { result ≡ aoi_start h }
{
    Cursor {
        offset: 4 * h,
        host: Host::Shared(2),
        members: h + 2,
    }
}

// The rows and the names of an AOI's parts: its h hosts, EnableIn and EnableOut, and the n declared members.
pub fn store_aoi(
    types: &TypeTable,
    book: &[u8],
    tys: &[u16],
    at: usize,
    n: usize,
    name: &[u8],
    h: u32,
    members: &mut MemberTable,
    row: usize,
    names: &mut NameTable,
    place: usize,
)
    requires { StorableAoi types.now book.now tys.now name.now at n h row place }
    ensures rows { members.new ≡ sets members.old (8 * row)
        (rows_of place (aoi_parts (named_in book.now) name.now
        (decls_from types.now book.now tys.now at 0 n))) }
    ensures names { names.new ≡ sets names.old place
        (names_of (aoi_parts (named_in book.now) name.now
        (decls_from types.now book.now tys.now at 0 n))) }
{
    let after = row + h as usize;
    let second = put_hosts(members, row, names, place, h);
    let third = put_enables(members, after, names, second);
    store(
        types,
        book,
        tys,
        at,
        n,
        name,
        aoi_start(h),
        members,
        after + 2,
        names,
        third,
    );
}

// How long a host's name is.
fn bit_host_long(i: u32) -> u32
    requires { i < 1000000 }
    ensures { BitHostLong i result }
{
    let d = two_digits(u64::from(i));
    (9 + (DIGITS - d.from)) as u32
}

// How long the names of h hosts are.
fn hosts_long(h: u32) -> u32
    requires { h ≤ 131072 }
    ensures { HostsLong h result }
{
    let mut long = 0;
    for i in 0..h {
        long += bit_host_long(i);
    }
    long
}

// How far an AOI's n declared members come, after its hosts, EnableIn and EnableOut.
pub fn measure_aoi(
    types: &TypeTable,
    book: &[u8],
    tys: &[u16],
    at: usize,
    n: usize,
    name: &[u8],
) -> Measured
    requires { Found book.now tys.now at n × (n ≤ 65536) }
    ensures { result ≡ measured_aoi name.now
        (decls_from types.now book.now tys.now at 0 n) }
{
    let h = hosts_for(count_bools(types, book, tys, at, n));
    measure(
        types,
        book,
        tys,
        at,
        n,
        name,
        aoi_start(h),
        hosts_long(h) + 17,
    )
}
