// The bytes of a type (document 01, "Atomic types" and "Layout").
ghost use Rattle.std.specs.Prelude.{◌≡◌};
ghost use Rattle.types.specs.inside.tables.Lent.{TyFits};
ghost use Rattle.types.specs.tables.Sizes.{size_in, sizes_in};

use crate::tables::lent::{TypeTable, type_row};
use crate::tables::member::Ty;

// The bytes of a type.
pub fn size_in(types: &TypeTable, ty: Ty) -> u64
    requires { TyFits ty }
    ensures { result ≡ size_in (sizes_in types.now) ty }
{
    match ty {
        Ty::Atomic(a) => u64::from(a.row_size()),
        Ty::Struct(n) => u64::from(type_row(types, n).size),
    }
}
