// Adding one type of the book (document 01, "Refusal numbers"), in the document's order: 2, 3, 4, 5, 6, 7; per
// member 2, 8, 9; then its layout, and 13.
ghost use Rattle.std.specs.Prelude.{◌≡◌, ◌<◌};
ghost use Rattle.types.specs.adding.Add.{add_members, add_named, add_entry, string_ok};
ghost use Rattle.types.specs.inside.adding.Add.{Took, Addable, AddableEntry};
ghost use Rattle.types.specs.inside.book.Decls.{decls_from};
ghost use Rattle.types.specs.inside.tables.Registry.{view_in};

use crate::adding::checks::check_members;
use crate::adding::ids::pick_id;
use crate::adding::new_types::{NewType, add_laid, add_string};
use crate::adding::used::Used;
use crate::atomics::lookup::lookup;
use crate::book::contents::{TypeEntry, count_of, has_id, is_aoi, is_string};
use crate::book::names::good_name;
use crate::layout::placing::MOST_SIZE;
use crate::refusals::refusal::Refusal;
use crate::tables::lent::Tables;

// The longest string: LEN takes four bytes.
const MOST_STRING: u32 = MOST_SIZE as u32 - 4;

// A string has a length from 1 to 2^26 - 4, no members, and is no AOI.
#[tactic(auto, unfolding(crate::specs::adding::Add::string_ok))]
fn string_ok(e: TypeEntry) -> bool
    ensures { result ≡ string_ok e }
{
    1 <= e.string && e.string <= MOST_STRING && e.count == 0 && !is_aoi(e)
}

// A type of the book whose turn it is: its number there, its entry, and where its members' entries begin; so much of
// the tables is used.
#[derive(Clone, Copy, Debug, PartialEq, Eq)]
pub struct Waiting {
    pub number: u32,
    pub entry: TypeEntry,
    pub at: usize,
    pub used: Used,
}

// A type of members: each is checked, then all are laid out.
fn add_members(
    book: &[u8],
    tys: &[u16],
    new: NewType,
    name: &[u8],
    tables: &mut Tables,
) -> Result<Used, Refusal>
    requires { Addable tables.old.types tables.old.members tables.old.names book.now tys.now name.now
        new.used new.at new.count }
    ensures { Took (add_members (view_in tables.old.types tables.old.names new.used) book.now
        new.number new.at new.count new.aoi name.now new.id
        (decls_from tables.old.types book.now tys.now new.at 0 new.count)) new.used
        tables.old.types tables.old.members tables.old.names
        tables.new.types tables.new.members tables.new.names result }
{
    check_members(book, new.at, new.count, new.aoi).map_err(|fault| fault.refusal(new.number))?;
    add_laid(book, tys, new, name, tables)
}

// A type with a name and an id: a string, or a type of members.
fn add_named(
    book: &[u8],
    tys: &[u16],
    w: Waiting,
    id: u16,
    name: &[u8],
    tables: &mut Tables,
) -> Result<Used, Refusal>
    requires { Addable tables.old.types tables.old.members tables.old.names book.now tys.now name.now
        w.used w.at w.entry.count }
    ensures { Took (add_named (view_in tables.old.types tables.old.names w.used) book.now
        w.number w.at w.entry name.now id
        (decls_from tables.old.types book.now tys.now w.at 0 w.entry.count)) w.used
        tables.old.types tables.old.members tables.old.names
        tables.new.types tables.new.members tables.new.names result }
{
    let new = NewType {
        number: w.number,
        at: w.at,
        count: count_of(w.entry.count),
        aoi: is_aoi(w.entry),
        id,
        used: w.used,
    };
    if !is_string(w.entry) {
        return add_members(book, tys, new, name, tables);
    }
    if !string_ok(w.entry) {
        return Err(Refusal::StringWrong(w.number));
    }
    add_string(new, w.entry.string, name, tables)
}

// A type of the book, with its name: the name is good and new, then it gets an id.
pub fn add_entry(
    book: &[u8],
    tys: &[u16],
    w: Waiting,
    name: &[u8],
    tables: &mut Tables,
) -> Result<Used, Refusal>
    requires { AddableEntry tables.old.types tables.old.members tables.old.names book.now tys.now
        w.used w.at w.entry.count }
    ensures { Took (add_entry (view_in tables.old.types tables.old.names w.used) book.now
        w.number w.at w.entry name.now
        (decls_from tables.old.types book.now tys.now w.at 0 w.entry.count)) w.used
        tables.old.types tables.old.members tables.old.names
        tables.new.types tables.new.members tables.new.names result }
{
    if !good_name(name) {
        return Err(Refusal::NameOutsideRule(w.number));
    }
    if lookup(&tables.types, &tables.names, w.used.types, name).is_some() {
        return Err(Refusal::NameKnown(w.number));
    }
    let id = pick_id(&tables.types, w.used.types, has_id(w.entry), w.entry.id).map_err(
        |fault| fault.refusal(w.number),
    )?;
    add_named(book, tys, w, id, name, tables)
}
