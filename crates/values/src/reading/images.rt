// Images of a type (document 01, "Reading", refusals 15 and 14): what reading, writing and making normal ask before
// anything else, whether there is such a type and the image has the length of its value.
ghost use Rattle.std.specs.Prelude.{◌≡◌, ◌*◌, eqb};
ghost use Rattle.types.specs.inside.tables.Lent.{TyFits};
ghost use Rattle.types.specs.refusals.Said.{said_by};
ghost use Rattle.types.specs.tables.Sizes.{size_in, sizes_in};
ghost use Rattle.values.specs.inside.reading.Images.{said_of_image};

use crate::reading::rows::{struct_size, times_of};
use types::{Refusal, Ty, TypeTable, is_there};

// The bytes of a type.
fn size_of_ty(types: &TypeTable, ty: Ty) -> usize
    requires { TyFits ty }
    ensures { result ≡ size_in (sizes_in types.now) ty }
{
    match ty {
        Ty::Atomic(a) => a.size() as usize,
        Ty::Struct(i) => struct_size(types, i),
    }
}

// A product, which may be too large for a number of ours.
fn is_product(long: usize, size: usize, n: usize) -> bool
    ensures { result ≡ eqb long (size * n) }
{
    size.checked_mul(n) == Some(long)
}

// Whether an image of so many bytes is one of `count` elements of a type, or of one where `count` is 0.
pub fn image_fit(types: &TypeTable, ty: Ty, count: u64, long: usize) -> Result<(), Refusal>
    ensures { said_by result ≡ said_of_image types.now ty count long }
{
    if !is_there(types, ty) {
        return Err(Refusal::NoSuchType);
    }
    let n = times_of(count as usize);
    if !is_product(long, size_of_ty(types, ty), n) {
        return Err(Refusal::ImageLength);
    }
    Ok(())
}
