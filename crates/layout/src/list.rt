// The listing of the types in the tables (document 01, end of "Reference cases"): each type's line and its members'
// lines, after the four predefined types.
ghost use Rattle.std.specs.Prelude.{◌≤◌, length};
ghost use Rattle.types.specs.tables.Kept.{KeptTables};

use crate::lines::{add_member, add_type};
use types::{Tables, type_at, type_count};

// The predefined types come first in the tables and are never shown.
const PREDEFINED: usize = 4;

// The lines of the members of the type with a number; answers the place after them.
fn add_members(tables: &Tables, i: usize, out: &mut [u8], from: usize) -> usize
    requires { KeptTables tables.now × (from ≤ length out.old) }
    ensures { result ≤ length out.old }
{
    let mut at = from;
    for k in 0..type_at(&tables.types, i).count as usize {
        at = add_member(tables, i, k, out, at);
    }
    at
}

// The whole listing, written.
pub fn list(tables: &Tables, out: &mut [u8])
    requires { KeptTables tables.now }
{
    let mut at: usize = 0;
    for i in PREDEFINED..type_count(&tables.types) {
        at = add_type(tables, i, out, at);
        at = add_members(tables, i, out, at);
    }
    io::write_all(1, &out[..at]);
}
