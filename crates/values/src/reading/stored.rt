// The stored text of a string (document 01, "Reading"): handed back as that part of the caller's image.
ghost use Rattle.types.specs.tables.Kept.{KeptRows};
ghost use Rattle.values.specs.inside.reading.Texts.{StringFound};
ghost use Rattle.values.specs.reading.Texts.{Stored};

use crate::reading::rows::{capacity_at, is_string};
use crate::reading::texts::text_length;
use types::{MemberTable, Refusal, StructDef, Ty, TypeTable, is_there, type_row};

// The row of a string type; or 15.
fn string_row(types: &TypeTable, ty: Ty) -> Result<StructDef, Refusal>
    ensures { StringFound types.now ty result }
{
    if !is_there(types, ty) {
        return Err(Refusal::NoSuchType);
    }
    let Ty::Struct(i) = ty else {
        return Err(Refusal::NoSuchType);
    };
    let d = type_row(types, i);
    if !is_string(d.kind) {
        return Err(Refusal::NoSuchType);
    }
    Ok(d)
}

// The text's part of the image; or 15 or 14.
pub fn text<'a>(
    types: &TypeTable,
    members: &MemberTable,
    ty: Ty,
    image: &'a [u8],
) -> Result<&'a [u8], Refusal>
    requires { KeptRows types.now members.now }
    ensures { Stored types.now members.now ty image.entry result }
{
    let d = string_row(types, ty)?;
    if image.len() != d.size as usize {
        return Err(Refusal::ImageLength);
    }
    let capacity = capacity_at(members, d.first as usize);
    let end = 4 + text_length(capacity, image);
    Ok(&image[4..end])
}
