// UDTs (document 01, "Layout"): from offset 0 with no host open; the size is rounded up to 4.
ghost use Rattle.std.specs.Prelude.{◌≡◌, ◌*◌, ◌^◌, ◌≤◌};
ghost use Rattle.std.proofs.lemmas.List.Edits.{sets};
ghost use Rattle.types.specs.inside.book.Decls.{decls_from, Found};
ghost use Rattle.types.specs.inside.layout.Passes.{udt_parts, measured, Storable};
ghost use Rattle.types.specs.layout.HostNames.{host_name};
ghost use Rattle.types.specs.layout.Structs.{names_of, rows_of, named_in, rounded_size, udt_start};

use crate::layout::measure::{Measured, measure};
use crate::layout::placing::{Cursor, Host, align_up};
use crate::layout::store::store;
use crate::tables::lent::{MemberTable, NameTable, TypeTable};

// The size of what was laid out so far.
pub fn rounded_size(c: Cursor) -> u32
    requires { c.offset ≤ 2 ^ 27 }
    ensures { result ≡ rounded_size c }
{
    align_up(c.offset, 4)
}

fn udt_start() -> Cursor
    ensures { result ≡ udt_start }
{
    Cursor {
        offset: 0,
        host: Host::Closed,
        members: 0,
    }
}

// How far a UDT's n declared members come.
pub fn measure_udt(
    types: &TypeTable,
    book: &[u8],
    tys: &[u16],
    at: usize,
    n: usize,
    name: &[u8],
) -> Measured
    requires { Found book.now tys.now at n × (n ≤ 65536) }
    ensures { result ≡ measured (host_name name.now) udt_start 0
        (decls_from types.now book.now tys.now at 0 n) }
{
    measure(types, book, tys, at, n, name, udt_start(), 0)
}

// The rows and the names of a UDT's n declared members.
pub fn store_udt(
    types: &TypeTable,
    book: &[u8],
    tys: &[u16],
    at: usize,
    n: usize,
    name: &[u8],
    members: &mut MemberTable,
    row: usize,
    names: &mut NameTable,
    place: usize,
)
    requires { Storable types.now book.now tys.now name.now at n udt_start row place }
    ensures rows { members.new ≡ sets members.old (8 * row)
        (rows_of place (udt_parts (named_in book.now) name.now
        (decls_from types.now book.now tys.now at 0 n))) }
    ensures names { names.new ≡ sets names.old place
        (names_of (udt_parts (named_in book.now) name.now
        (decls_from types.now book.now tys.now at 0 n))) }
{
    store(
        types,
        book,
        tys,
        at,
        n,
        name,
        udt_start(),
        members,
        row,
        names,
        place,
    );
}
