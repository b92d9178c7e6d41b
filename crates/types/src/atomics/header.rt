// A type's header (document 01, "Atomic types"): an atomic's code and 0, or A0 02 and the structure's handle.
ghost use Rattle.std.specs.Prelude.{◌≡◌};
ghost use Rattle.types.specs.refusals.Said.{said_by};
ghost use Rattle.types.specs.atomics.Header.{header_held, header_of, handles_in, headed_of};
ghost use Rattle.types.specs.inside.tables.Lent.{TyFits};

use crate::refusals::refusal::Refusal;
use crate::tables::lent::{TypeTable, type_row};
use crate::tables::member::Ty;
use crate::tables::there::is_there;

// The first `long` of these bytes; those after them are 0.
#[derive(Clone, Copy, Debug, PartialEq, Eq)]
pub struct Header {
    pub bytes: [u8; 4],
    pub long: usize,
}

// The header of a type that is there.
fn header_in(types: &TypeTable, ty: Ty) -> Header
    requires { TyFits ty }
    ensures { result ≡ header_held (header_of (handles_in types.now) ty) }
{
    match ty {
        Ty::Atomic(a) => Header {
            bytes: [a.code(), 0, 0, 0],
            long: 2,
        },
        Ty::Struct(n) => {
            let [low, high] = type_row(types, n).handle.to_le_bytes();
            Header {
                bytes: [0xA0, 0x02, low, high],
                long: 4,
            }
        }
    }
}

// The header that a reply has before the bytes of a value of the type; 15 where there is no such type.
pub fn type_header(types: &TypeTable, ty: Ty) -> Result<Header, Refusal>
    ensures { said_by result ≡ headed_of types.now ty }
{
    if !is_there(types, ty) {
        return Err(Refusal::NoSuchType);
    }
    Ok(header_in(types, ty))
}
