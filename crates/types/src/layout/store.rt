// Whole layouts (document 01, "Layout"), the second pass: the rows and the names of what was measured.
ghost use Rattle.std.specs.Prelude.{◌≡◌, ◌+◌, ◌*◌, ◌<◌, ◌≤◌, [], ◌∷◌, length};
ghost use Rattle.std.proofs.lemmas.List.Edits.{sets};
ghost use Rattle.types.specs.inside.book.Decls.{decls_from};
ghost use Rattle.types.specs.inside.layout.Passes.{one_parts, stored_one, StepFits, parts_from, Storable};
ghost use Rattle.types.specs.inside.tables.Lent.{TyFits};
ghost use Rattle.types.specs.layout.HostNames.{host_name};
ghost use Rattle.types.specs.layout.Structs.{names_of, rows_of, named, named_in};
ghost use Rattle.types.specs.tables.Limits.{most_members, most_names};

use crate::book::decls::decl_at;
use crate::layout::host_names::{host_long, put_host_name};
use crate::layout::placing::{Cursor, Decl, Placed, place};
use crate::tables::lent::{MemberTable, NameTable, TypeTable, put_bytes, put_member};
use crate::tables::member::{Member, Span};

// A member's row, and its name among the names.
pub fn put_part(
    members: &mut MemberTable,
    row: usize,
    names: &mut NameTable,
    at: usize,
    name: &[u8],
    m: Member,
)
    requires { (row < most_members) × ((at + length name.now ≤ most_names) × TyFits m.ty) }
    ensures rows { members.new ≡ sets members.old (8 * row)
        (rows_of at (named name.now m ∷ [])) }
    ensures names { names.new ≡ sets names.old at
        (names_of (named name.now m ∷ [])) }
{
    put_bytes(names, at, name);
    put_member(
        members,
        row,
        Span {
            at: at as u32,
            long: name.len() as u32,
        },
        m,
    );
}

// A hidden host's row, and its name among the names; answers the name's length.
fn put_host(
    members: &mut MemberTable,
    row: usize,
    names: &mut NameTable,
    at: usize,
    name: &[u8],
    k: u32,
    m: Member,
) -> usize
    requires { (row < most_members) × ((k < 1000000) × ((at + length (host_name name.now k) ≤ most_names)
        × TyFits m.ty)) }
    ensures long { result ≡ length (host_name name.now k) }
    ensures rows { members.new ≡ sets members.old (8 * row)
        (rows_of at (named (host_name name.now k) m ∷ [])) }
    ensures names { names.new ≡ sets names.old at
        (names_of (named (host_name name.now k) m ∷ [])) }
{
    let long = host_long(name, k);
    put_host_name(names, at, name, k);
    put_member(
        members,
        row,
        Span {
            at: at as u32,
            long,
        },
        m,
    );
    long as usize
}

// Where the next member goes: the cursor, the row, and the place of its name.
#[derive(Clone, Copy, Debug, PartialEq, Eq)]
pub struct StoreNext {
    pub cursor: Cursor,
    pub row: usize,
    pub place: usize,
}

// The rows and the names of one declared member of a type with that name. Nothing is left to store where the
// layout was refused.
fn store_one(
    book: &[u8],
    name: &[u8],
    to: StoreNext,
    d: Decl,
    members: &mut MemberTable,
    names: &mut NameTable,
) -> Option<StoreNext>
    requires { StepFits book.now name.now to.cursor d to.row to.place }
    ensures next { result ≡ stored_one name.now to.cursor d to.row to.place }
    ensures rows { members.new ≡ sets members.old (8 * to.row)
        (rows_of to.place (one_parts book.now name.now to.cursor d)) }
    ensures names { names.new ≡ sets names.old to.place
        (names_of (one_parts book.now name.now to.cursor d)) }
{
    let start = d.name.at as usize;
    let long = d.name.long as usize;
    let part = &book[start..start + long];
    match place(to.cursor, d) {
        Ok(Placed::Hosted(h, m, cursor)) => {
            let host = put_host(members, to.row, names, to.place, name, to.cursor.members, h);
            put_part(members, to.row + 1, names, to.place + host, part, m);
            Some(StoreNext {
                cursor,
                row: to.row + 2,
                place: to.place + host + long,
            })
        }
        Ok(Placed::One(m, cursor)) => {
            put_part(members, to.row, names, to.place, part, m);
            Some(StoreNext {
                cursor,
                row: to.row + 1,
                place: to.place + long,
            })
        }
        Err(_) => None,
    }
}

// The rows and the names of n declared members of a type with that name: from a row and from a place
// among the names on, and from a cursor on.
pub fn store(
    types: &TypeTable,
    book: &[u8],
    tys: &[u16],
    at: usize,
    n: usize,
    name: &[u8],
    from: Cursor,
    members: &mut MemberTable,
    row: usize,
    names: &mut NameTable,
    place: usize,
)
    requires { Storable types.now book.now tys.now name.now at n from row place }
    ensures rows { members.new ≡ sets members.old (8 * row)
        (rows_of place (parts_from (named_in book.now) (host_name name.now) from
        (decls_from types.now book.now tys.now at 0 n))) }
    ensures names { names.new ≡ sets names.old place
        (names_of (parts_from (named_in book.now) (host_name name.now) from
        (decls_from types.now book.now tys.now at 0 n))) }
{
    let mut next = StoreNext {
        cursor: from,
        row,
        place,
    };
    for j in 0..n {
        let d = decl_at(types, book, tys, at, j);
        let Some(after) = store_one(book, name, next, d, members, names) else {
            return;
        };
        next = after;
    }
}
