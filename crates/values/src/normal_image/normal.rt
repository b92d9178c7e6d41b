// Normal images (document 01, "Normal image"): an image made normal in place, so that two images of a type hold the
// same values exactly when their bytes are then equal.
ghost use Rattle.std.specs.Prelude.{◌≡◌};
ghost use Rattle.types.specs.tables.Kept.{KeptRows};
ghost use Rattle.values.specs.inside.normal_image.Placed.{Sweepable};
ghost use Rattle.values.specs.inside.reading.Walkable.{ValueImage};
ghost use Rattle.values.specs.normal_image.Normalised.{MadeNormal, value_normal};

use crate::normal_image::leaves::normal_atomics;
use crate::normal_image::walk::{normal_elements, normal_struct};
use crate::reading::images::image_fit;
use types::{MemberTable, Refusal, Ty, TypeTable};

// A value of n elements, or of one where n is 0.
fn normal_value(types: &TypeTable, members: &MemberTable, ty: Ty, n: usize, image: &mut [u8])
    requires { Sweepable types.now members.now × ValueImage types.now ty n image.old }
    ensures { image.new
        ≡ value_normal types.now members.now ty n image.old }
{
    match ty {
        Ty::Atomic(a) => normal_atomics(a, n, image, 0),
        Ty::Struct(i) if n == 0 => normal_struct(types, members, i, image, 0),
        Ty::Struct(i) => normal_elements(types, members, i, n, image, 0),
    }
}

// Makes an image of a type normal, of `count` elements where `count` is not 0; or refuses with 15 or 14, and the image
// is as it was.
pub fn normal(
    types: &TypeTable,
    members: &MemberTable,
    ty: Ty,
    count: u64,
    image: &mut [u8],
) -> Result<(), Refusal>
    requires { KeptRows types.now members.now }
    ensures { MadeNormal types.now members.now ty count image.old result
        image.new }
{
    image_fit(types, ty, count, image.len())?;
    normal_value(types, members, ty, count as usize, image);
    Ok(())
}
