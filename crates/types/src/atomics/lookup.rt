// Types by their names (document 01, "Atomic types": names compare without ASCII case): an atomic first, then the types
// in order.
ghost use Rattle.std.specs.Prelude.{◌≡◌, ◌+◌, ◌-◌, ◌<◌, ◌≤◌, length};
ghost use Rattle.types.specs.atomics.Lookup.{row_names, said_by, word_among, row_name, named_among};
ghost use Rattle.types.specs.book.Contents.{list_from};
ghost use Rattle.types.specs.book.Names.{same_name};
ghost use Rattle.types.specs.inside.atomics.Lookup.{NamesInside, type_of};
ghost use Rattle.types.specs.tables.Kept.{KeptNames};
ghost use Rattle.types.specs.tables.Lent.{type_at};
ghost use Rattle.types.specs.tables.Limits.{most_types};
ghost use Rattle.types.specs.tables.Registry.{type_count};

use crate::atomics::atomic::Atomic;
use crate::book::names::same_name;
use crate::tables::count::type_count;
use crate::tables::lent::{NameTable, TYPE_WORDS, TypeTable};
use crate::tables::member::Ty;

// The structure in a row has a name. A name of another length is told apart without being read.
fn row_named(types: &TypeTable, names: &[u8], i: usize, name: &[u8]) -> bool
    requires { (i < most_types)
        × ((type_at types.now i).name.at + (type_at types.now i).name.long ≤ length names.now) }
    ensures { result ≡ same_name (row_name types.now names.now i) name.now }
{
    let start = types[TYPE_WORDS * i] as usize;
    let long = types[TYPE_WORDS * i + 1] as usize;
    long == name.len() && same_name(&names[start..start + long], name)
}

// The first of n structures with a name, from one of them on.
pub fn find_type(types: &TypeTable, names: &[u8], from: usize, n: usize, name: &[u8]) -> Option<Ty>
    requires { NamesInside types.now names.now n }
    ensures { result ≡ named_among (list_from (row_name types.now names.now) from (n - from))
        name.now from }
{
    for i in from..n {
        if row_named(types, names, i, name) {
            return Some(Ty::Struct(i));
        }
    }
    None
}

// The type of a name among the atomics and the first n structures.
pub fn lookup(types: &TypeTable, names: &[u8], n: usize, name: &[u8]) -> Option<Ty>
    requires { NamesInside types.now names.now n }
    ensures { result ≡ type_of types.now names.now n name.now }
{
    match Atomic::from_name(name) {
        Some(a) => Some(Ty::Atomic(a)),
        None => find_type(types, names, 0, n, name),
    }
}

// The type of a name: an atomic, else the first structure of the tables.
pub fn find(types: &TypeTable, names: &NameTable, name: &[u8]) -> Option<Ty>
    requires { KeptNames types.now names.now }
    ensures { said_by result ≡ word_among
        (row_names types.now names.now (type_count types.now)) name.now }
{
    lookup(types, names, type_count(types), name)
}
