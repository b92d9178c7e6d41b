// A type as templates and symbol types say it (document 01, "Template and handle" and "Tag shape"): its code, or 0x8000
// plus its template id.
ghost use Rattle.std.specs.Prelude.{◌≡◌, ◌+◌};
ghost use Rattle.types.specs.inside.tables.Lent.{TyFits};
ghost use Rattle.types.specs.tables.TypeWord.{ids_in, type_in};

use crate::tables::lent::{TypeTable, type_row};
use crate::tables::member::Ty;

// Code, or 0x8000 plus the id of the structure.
pub fn type_in(types: &TypeTable, ty: Ty) -> u32
    requires { TyFits ty }
    ensures { result ≡ type_in (ids_in types.now) ty }
{
    match ty {
        Ty::Atomic(a) => u32::from(a.code()),
        Ty::Struct(n) => 0x8000 + u32::from(type_row(types, n).id),
    }
}
