// Waste (document 01, "Template and handle", added): a structure's size in bits less the bits of its
// visible members.
ghost use Rattle.std.specs.Prelude.{◌≡◌, ℕ, List};
ghost use Rattle.types.specs.refusals.Said.{said_by};
ghost use Rattle.types.specs.inside.templates.Waste.{Fitting, SeenBits, Countable};
ghost use Rattle.types.specs.tables.Kept.{KeptRows};
ghost use Rattle.types.specs.templates.Waste.{waste_in, waste_at};

use crate::layout::placing::elements;
use crate::refusals::refusal::Refusal;
use crate::tables::lent::{MemberTable, TypeTable, member_row};
use crate::tables::member::{Member, StructDef};
use crate::tables::sizes::size_in;
use crate::templates::template::struct_there;

// The bits of a member that is visible, 0 for a hidden one.
fn seen_bits(types: &TypeTable, m: Member) -> u64
    requires { Fitting types.now m }
    ensures { SeenBits types.now m result }
{
    if m.hidden {
        return 0;
    }
    match m.bit {
        None => 8 * (size_in(types, m.ty) * elements(m.count)),
        Some(_) => 1,
    }
}

// How many bits of a structure are waste; no name matters to it.
pub fn lost_bits(types: &TypeTable, members: &MemberTable, d: StructDef) -> u64
    requires { Countable types.now members.now d }
    ensures { (names : List ℕ) → result ≡ waste_in types.now members.now names d }
{
    let first = d.first as usize;
    let mut bits: u64 = 0;
    for row in first..first + d.count as usize {
        bits += seen_bits(types, member_row(members, row));
    }
    (8 * u64::from(d.size)).saturating_sub(bits)
}

// The waste of the structure with a number; or 15.
pub fn waste(types: &TypeTable, members: &MemberTable, n: usize) -> Result<u64, Refusal>
    requires { KeptRows types.now members.now }
    ensures { (names : List ℕ) → said_by result ≡ waste_at types.now members.now names n }
{
    let d = struct_there(types, n)?;
    Ok(lost_bits(types, members, d))
}
