// The member types of a type that waits (document 01, "Order of building"): each is looked up by its name, and
// its word is kept in a scratch for the layout.
ghost use Rattle.std.specs.Prelude.{◌≡◌, true};
ghost use Rattle.types.specs.atomics.Lookup.{row_names};
ghost use Rattle.types.specs.inside.rounds.Resolve.{Resolves, Resolvable, StillIn, Still};
ghost use Rattle.types.specs.rounds.Resolve.{type_names};

use crate::atomics::lookup::{find_type, lookup};
use crate::book::contents::entry_at;
use crate::tables::lent::{Tables, word_of};

// Looks n members' types up among the first `known` types; answers how many were found before the first that
// was not.
pub fn resolve(
    tables: &Tables,
    known: usize,
    book: &[u8],
    at: usize,
    n: usize,
    tys: &mut [u16],
) -> usize
    requires { Resolvable tables.now.types tables.now.names book.now tys.old known at n }
    ensures { Resolves (row_names tables.now.types tables.now.names known)
        (type_names book.now at 0 n) tys.old tys.new result }
{
    for j in 0..n {
        let span = entry_at(book, at + 16 * j).ty;
        let start = span.at as usize;
        let end = start + span.long as usize;
        let Some(ty) = lookup(&tables.types, &tables.names, known, &book[start..end]) else {
            return j;
        };
        tys[j] = word_of(ty);
    }
    n
}

// The k-th member's type, which was not among the first `from` types, is not among the first n either. Where `from`
// is 0 nothing is known of it.
pub fn waits_still(tables: &Tables, book: &[u8], at: usize, k: usize, from: usize, n: usize) -> bool
    requires { StillIn tables.now.types tables.now.names book.now at k from n }
    ensures { result ≡ true → Still tables.now.types tables.now.names book.now at k from n }
{
    if from == 0 {
        return false;
    }
    let span = entry_at(book, at + 16 * k).ty;
    let start = span.at as usize;
    let end = start + span.long as usize;
    find_type(&tables.types, &tables.names, from, n, &book[start..end]).is_none()
}
