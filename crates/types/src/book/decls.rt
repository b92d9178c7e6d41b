// Declared members whose types were found (document 01, "Declaration book" and "Layout"): a book's entry
// as a declaration that a layout can place.
ghost use Rattle.std.specs.Prelude.{◌≡◌, ◌+◌};
ghost use Rattle.types.specs.book.Decls.{plain as plain_of, resolved as resolved_of};
ghost use Rattle.types.specs.inside.book.Decls.{decl_at, Found};
ghost use Rattle.types.specs.inside.tables.Lent.{TyFits};
ghost use Rattle.types.specs.tables.Sizes.{sizes_in};

use crate::atomics::atomic::Atomic;
use crate::book::contents::entry_at;
use crate::layout::placing::{Decl, is_bool};
use crate::tables::lent::{TypeTable, ty_of, type_row};
use crate::tables::member::{Span, Ty};

// A declared member that is stored as it is declared.
fn plain(types: &TypeTable, ty: Ty, dim: u32, name: Span, local: bool, access: u8) -> Decl
    requires { TyFits ty }
    ensures { result ≡ plain_of (sizes_in types.now) ty dim name local access }
{
    let (size, align) = match ty {
        Ty::Atomic(a) => {
            let size = u32::from(a.row_size());
            (size, size.min(4))
        }
        Ty::Struct(n) => (type_row(types, n).size, 4),
    };
    Decl {
        name,
        ty,
        size,
        align,
        count: dim,
        local,
        access,
    }
}

// A declared member of a type that was found. A BOOL with a dim is DWORDs.
fn resolved(types: &TypeTable, ty: Ty, dim: u32, name: Span, local: bool, access: u8) -> Decl
    requires { TyFits ty }
    ensures { result ≡ resolved_of (sizes_in types.now) ty dim name local access }
{
    let (ty, count) = if is_bool(ty) && dim != 0 {
        (Ty::Atomic(Atomic::DWord), dim.div_ceil(32))
    } else {
        (ty, dim)
    };
    plain(types, ty, count, name, local, access)
}

// The j-th of a type's declared members: its entry in the book, and the type that was found for it.
pub fn decl_at(types: &TypeTable, book: &[u8], tys: &[u16], at: usize, j: usize) -> Decl
    requires { Found book.now tys.now at (j + 1) }
    ensures { result ≡ decl_at types.now book.now tys.now at j }
{
    let e = entry_at(book, at + 16 * j);
    let ty = ty_of(u32::from(tys[j]));
    resolved(types, ty, e.dim, e.name, e.local == 1, e.access)
}
