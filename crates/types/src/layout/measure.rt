// Whole layouts (document 01, "Layout"), the first pass: how far the declared members come, or why they
// do not. Nothing is stored before all is known.
ghost use Rattle.std.specs.Prelude.{◌≡◌, ◌+◌};
ghost use Rattle.types.specs.inside.book.Decls.{decls_from};
ghost use Rattle.types.specs.inside.layout.Passes.{measure_one, measured, Near, Measurable};
ghost use Rattle.types.specs.layout.HostNames.{host_name};

use crate::book::decls::decl_at;
use crate::layout::host_names::host_long;
use crate::layout::placing::{Cursor, Decl, LayoutFault, Placed, place};
use crate::tables::lent::TypeTable;

// How far a layout came, and how many bytes its names have; or the fault that it meets first.
pub type Measured = Result<(Cursor, u32), LayoutFault>;

// One declared member, of a type with that name, after `names` bytes of names.
fn measure_one(name: &[u8], c: Cursor, names: u32, d: Decl) -> Measured
    requires { Near c names d }
    ensures { result ≡ measure_one (host_name name.now) c names d }
{
    match place(c, d)? {
        Placed::Hosted(_, _, next) => Ok((next, names + host_long(name, c.members) + d.name.long)),
        Placed::One(_, next) => Ok((next, names + d.name.long)),
    }
}

// How far n declared members of a type with that name come, from a cursor on and after `names` bytes of
// names.
pub fn measure(
    types: &TypeTable,
    book: &[u8],
    tys: &[u16],
    at: usize,
    n: usize,
    name: &[u8],
    from: Cursor,
    names: u32,
) -> Measured
    requires { Measurable book.now tys.now at n from names }
    ensures { result ≡ measured (host_name name.now) from names
        (decls_from types.now book.now tys.now at 0 n) }
{
    let mut c = from;
    let mut long = names;
    for j in 0..n {
        let (next, more) = measure_one(name, c, long, decl_at(types, book, tys, at, j))?;
        c = next;
        long = more;
    }
    Ok((c, long))
}
