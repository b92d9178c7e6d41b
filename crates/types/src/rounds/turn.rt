// One type's turn in a round (document 01, "Order of building"): it is added when all its member types are
// known, those of the same round included.
ghost use Rattle.std.specs.Prelude.{◌+◌};
ghost use Rattle.types.specs.adding.Add.{add_to};
ghost use Rattle.types.specs.adding.Checks.{entries_from};
ghost use Rattle.types.specs.atomics.Lookup.{row_names};
ghost use Rattle.types.specs.inside.rounds.Turns.{TurnIn, Turned, Tries};
ghost use Rattle.types.specs.inside.tables.Registry.{view_in};
ghost use Rattle.types.specs.rounds.Order.{all_known};
ghost use Rattle.types.specs.rounds.Resolve.{type_names, has_name};
ghost use Rattle.types.specs.rounds.Turns.{count_of, decls_of};

use crate::adding::add::{Waiting, add_entry};
use crate::adding::used::Used;
use crate::book::contents::{count_of, type_entry};
use crate::refusals::refusal::Refusal;
use crate::rounds::resolve::{resolve, waits_still};
use crate::tables::lent::Tables;

// The turn of the i-th type of a book, whose members' entries begin at a place; so much of the tables is used. A type
// that waited looks through the types that were added since, for the member whose type was not found.
pub fn take_turn(
    book: &[u8],
    i: usize,
    at: usize,
    tables: &mut Tables,
    u: Used,
    tys: &mut [u16],
    stuck: &mut [u16],
    tried: &mut [u8],
) -> Result<Option<Used>, Refusal>
    requires { TurnIn tables.old.types tables.old.members tables.old.names book.now tys.old stuck.old tried.old i at u }
    ensures { (Turned (all_known has_name (row_names tables.old.types tables.old.names u.types)
        (type_names book.now at 0 (count_of book.now i)))
        (add_to (view_in tables.old.types tables.old.names u) book.now i at
        (decls_of (view_in tables.old.types tables.old.names u) book.now
        (entries_from book.now at 0 (count_of book.now i)))) u
        tables.old.types tables.old.members tables.old.names
        tables.new.types tables.new.members tables.new.names result)
        × (Tries book.now (row_names tables.old.types tables.old.names u.types)
        stuck.new tried.new) }
{
    let known = u.types;
    let k = count_of(stuck[i]);
    let from = tried[i] as usize;
    if waits_still(tables, book, at, k, from, known) {
        tried[i] = known as u8;
        return Ok(None);
    }
    let e = type_entry(book, i);
    let n = count_of(e.count);
    let found = resolve(tables, known, book, at, n, tys);
    if found < n {
        stuck[i] = found as u16;
        tried[i] = known as u8;
        return Ok(None);
    }
    let start = e.name.at as usize;
    let end = start + e.name.long as usize;
    let w = Waiting {
        number: i as u32,
        entry: e,
        at,
        used: u,
    };
    add_entry(book, tys, w, &book[start..end], tables).map(Some)
}
