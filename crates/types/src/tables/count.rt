// How many types stand in the tables.
ghost use Rattle.std.specs.Prelude.{◌≡◌};
ghost use Rattle.types.specs.tables.Registry.{type_count};

use crate::tables::lent::{TYPE_WORDS, TYPES, TypeTable};

// A template id of 0 marks an unused row.
pub fn type_count(types: &TypeTable) -> usize
    ensures { result ≡ type_count types.now }
{
    for i in 0..TYPES {
        if types[TYPE_WORDS * i + 2] == 0 {
            return i;
        }
    }
    TYPES
}
