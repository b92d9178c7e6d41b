// New types of the book, laid out (document 01, "Refusal numbers": layout per member 11, 12; then 13): a UDT, an
// AOI, a string. Nothing is stored before all is known.
ghost use Rattle.std.specs.Prelude.{◌≡◌, ◌+◌, ◌*◌, ◌-◌, ◌≤◌, length, Ok};
ghost use Rattle.std.proofs.lemmas.List.Edits.{sets};
ghost use Rattle.types.specs.adding.Add.{add_laid, new_def, fitted, yes};
ghost use Rattle.types.specs.declared.tables.member.StructKind.TheVariants.{Str};
ghost use Rattle.types.specs.inside.adding.Add.{Took, Ready, Addable, AddableString};
ghost use Rattle.types.specs.inside.book.Decls.{decls_from, Found};
ghost use Rattle.types.specs.inside.layout.Passes.{parts_of, measured_of, StorableType};
ghost use Rattle.types.specs.inside.tables.Registry.{view_in};
ghost use Rattle.types.specs.layout.Placing.{most_size};
ghost use Rattle.types.specs.layout.Structs.{names_of, rows_of, named_in, laid_kind, string_parts, string_size};

use crate::adding::new_row::{bare_head, enter};
use crate::adding::used::{Used, has_room, used_more};
use crate::layout::aoi::{count_bools, hosts_for, measure_aoi, store_aoi};
use crate::layout::fixed::{put_string, string_size};
use crate::layout::measure::Measured;
use crate::layout::udt::{measure_udt, rounded_size, store_udt};
use crate::refusals::refusal::Refusal;
use crate::tables::lent::{MemberTable, NameTable, Tables, TypeTable, put_bytes};
use crate::tables::member::StructKind;

// A type of the book that is added: its number there, where its members' entries begin, how many there are, whether it
// is an AOI, and its id; so much of the tables is used before it.
#[derive(Clone, Copy, Debug, PartialEq, Eq)]
pub struct NewType {
    pub number: u32,
    pub at: usize,
    pub count: usize,
    pub aoi: bool,
    pub id: u16,
    pub used: Used,
}

// An AOI, or a UDT.
fn laid_kind(aoi: bool) -> StructKind
    ensures { result ≡ laid_kind aoi }
{
    if aoi {
        StructKind::Aoi
    } else {
        StructKind::Udt
    }
}

// How far the declared members come, as an AOI's or as a UDT's.
fn measure_type(types: &TypeTable, book: &[u8], tys: &[u16], new: NewType, name: &[u8]) -> Measured
    requires { Found book.now tys.now new.at new.count × (new.count ≤ 65536) }
    ensures { result ≡ measured_of new.aoi name.now
        (decls_from types.now book.now tys.now new.at 0 new.count) }
{
    if new.aoi {
        measure_aoi(types, book, tys, new.at, new.count, name)
    } else {
        measure_udt(types, book, tys, new.at, new.count, name)
    }
}

// The rows and the names of its parts, after what is used and its own name.
fn store_type(
    types: &TypeTable,
    book: &[u8],
    tys: &[u16],
    new: NewType,
    name: &[u8],
    members: &mut MemberTable,
    names: &mut NameTable,
)
    requires { StorableType types.now book.now tys.now name.now new }
    ensures rows { members.new ≡ sets members.old (8 * new.used.members)
        (rows_of (new.used.bytes + length name.now)
        (parts_of new.aoi (named_in book.now) name.now
        (decls_from types.now book.now tys.now new.at 0 new.count))) }
    ensures names { names.new ≡ sets names.old (new.used.bytes + length name.now)
        (names_of (parts_of new.aoi (named_in book.now) name.now
        (decls_from types.now book.now tys.now new.at 0 new.count))) }
{
    let NewType { at, count, .. } = new;
    let row = new.used.members;
    let place = new.used.bytes + name.len();
    if new.aoi {
        let h = hosts_for(count_bools(types, book, tys, at, count));
        store_aoi(
            types, book, tys, at, count, name, h, members, row, names, place,
        );
    } else {
        store_udt(
            types, book, tys, at, count, name, members, row, names, place,
        );
    }
}

// A UDT or an AOI: measured, and stored where it can be laid out and there is room.
pub fn add_laid(
    book: &[u8],
    tys: &[u16],
    new: NewType,
    name: &[u8],
    tables: &mut Tables,
) -> Result<Used, Refusal>
    requires { Addable tables.old.types tables.old.members tables.old.names book.now tys.now name.now
        new.used new.at new.count }
    ensures { Took (add_laid (view_in tables.old.types tables.old.names new.used) book.now
        new.number new.aoi name.now new.id
        (decls_from tables.old.types book.now tys.now new.at 0 new.count)) new.used
        tables.old.types tables.old.members tables.old.names
        tables.new.types tables.new.members tables.new.names result }
{
    let (c, long) = measure_type(&tables.types, book, tys, new, name).map_err(|fault| fault.refusal(
        new.number,
    ))?;
    let parts = c.members as usize;
    let bytes = name.len() + long as usize;
    if !has_room(new.used, parts, bytes) {
        return Err(Refusal::TablesFull(new.number));
    }
    put_bytes(&mut tables.names, new.used.bytes, name);
    store_type(
        &tables.types,
        book,
        tys,
        new,
        name,
        &mut tables.members,
        &mut tables.names,
    );
    let kind = laid_kind(new.aoi);
    let head = bare_head(
        new.used,
        name.len(),
        new.id,
        rounded_size(c),
        kind,
        c.members,
    );
    enter(tables, new.used.types, head);
    Ok(used_more(new.used, parts, bytes))
}

// The name, the parts and the row of a string type, the book's or STRING, after what is used; answers how much is used
// then.
pub fn store_string(tables: &mut Tables, u: Used, id: u16, name: &[u8], capacity: u32) -> Used
    requires { Ready tables.old.types tables.old.members tables.old.names u 2 (length name.now + 7)
        × (capacity ≤ most_size - 4) }
    ensures { Took (yes (new_def (view_in tables.old.types tables.old.names u)
        name.now id (string_size capacity) Str (string_parts capacity))) u
        tables.old.types tables.old.members tables.old.names
        tables.new.types tables.new.members tables.new.names (Ok result) }
{
    let long = name.len();
    let size = string_size(capacity);
    put_bytes(&mut tables.names, u.bytes, name);
    put_string(
        &mut tables.members,
        u.members,
        &mut tables.names,
        u.bytes + long,
        capacity,
    );
    let head = bare_head(u, long, id, size, StructKind::Str, 2);
    enter(tables, u.types, head);
    used_more(u, 2, long + 7)
}

// A string: its two parts have seven bytes of names.
pub fn add_string(
    new: NewType,
    capacity: u32,
    name: &[u8],
    tables: &mut Tables,
) -> Result<Used, Refusal>
    requires addable_string { AddableString tables.old.types tables.old.members tables.old.names name.now new.used }
    requires capacity_bound { capacity ≤ most_size - 4 }
    ensures { Took (fitted (view_in tables.old.types tables.old.names new.used) new.number
        (new_def (view_in tables.old.types tables.old.names new.used) name.now new.id
        (string_size capacity) Str (string_parts capacity))) new.used
        tables.old.types tables.old.members tables.old.names
        tables.new.types tables.new.members tables.new.names result }
{
    if !has_room(new.used, 2, name.len() + 7) {
        return Err(Refusal::TablesFull(new.number));
    }
    Ok(store_string(tables, new.used, new.id, name, capacity))
}
