// How much of the lent tables is used (document 01, "Declaration book": the tables; refusal 13).
ghost use Rattle.std.specs.Prelude.{◌≡◌, ◌+◌, ◌<◌, ◌≤◌, ◌^◌};
ghost use Rattle.types.specs.adding.Add.{room_in_tables};
ghost use Rattle.types.specs.inside.tables.Registry.{used_with};
ghost use Rattle.types.specs.tables.Limits.{most_types, most_members, most_names};

use crate::tables::lent::{MEMBERS, NAME_BYTES, TYPES};

// So many types, members and bytes of names stand in the tables.
#[derive(Clone, Copy, Debug, PartialEq, Eq)]
pub struct Used {
    pub types: usize,
    pub members: usize,
    pub bytes: usize,
}

// The tables have room for one more type, with so many members and bytes of names.
#[tactic(auto, unfolding(crate::specs::adding::Add::room_in_tables))]
pub fn has_room(u: Used, members: usize, bytes: usize) -> bool
    requires { (u.members + members ≤ 2 ^ 40) × (u.bytes + bytes ≤ 2 ^ 40) }
    ensures { result ≡ room_in_tables u members bytes }
{
    u.types < TYPES && u.members + members <= MEMBERS && u.bytes + bytes <= NAME_BYTES
}

// How much is used with one type more.
pub fn used_more(u: Used, members: usize, bytes: usize) -> Used
    requires { (u.types < most_types) × ((u.members + members ≤ most_members) × (u.bytes + bytes ≤ most_names)) }
    ensures { result ≡ used_with u members bytes }
{
    Used {
        types: u.types + 1,
        members: u.members + members,
        bytes: u.bytes + bytes,
    }
}
