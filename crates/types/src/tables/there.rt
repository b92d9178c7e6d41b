// Whether there is such a type (document 01, "Refusal numbers": 15).
ghost use Rattle.std.specs.Prelude.{◌≡◌, true};
ghost use Rattle.types.specs.tables.There.{is_there};

use crate::atomics::atomic::Atomic;
use crate::tables::lent::{TYPES, TypeTable, type_row};
use crate::tables::member::Ty;

// An atomic, or a structure of the table.
pub fn is_there(types: &TypeTable, ty: Ty) -> bool
    ensures { result ≡ is_there types.now ty }
{
    match ty {
        Ty::Atomic(_) => true,
        Ty::Struct(n) => n < TYPES && type_row(types, n).id != 0,
    }
}
