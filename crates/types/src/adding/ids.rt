// Template ids (document 01, "Ids"): where none is given, a type takes the lowest id in 0x100..0xEFF that no
// type holds.
ghost use Rattle.std.specs.Prelude.{◌≡◌, ◌≤◌};
ghost use Rattle.types.specs.adding.Ids.{id_word, in_use, id_for, id_number};
ghost use Rattle.types.specs.book.Contents.{list_from};
ghost use Rattle.types.specs.inside.adding.Ids.{Lowest};
ghost use Rattle.types.specs.refusals.Said.{why_of};
ghost use Rattle.types.specs.tables.Limits.{most_types};

use crate::refusals::refusal::Refusal;
use crate::tables::lent::{TYPE_WORDS, TypeTable};

// Why there is no id for a type.
#[derive(Clone, Copy, Debug, PartialEq, Eq)]
pub enum IdFault {
    OutsideRange,
    InUse,
    NoneFree,
}

impl IdFault {
    // The refusal of the type with this number in the book.
    pub fn refusal(self, number: u32) -> Refusal
        ensures { why_of result ≡ (id_number self, number) }
    {
        match self {
            IdFault::OutsideRange => Refusal::IdOutsideRange(number),
            IdFault::InUse => Refusal::IdInUse(number),
            IdFault::NoneFree => Refusal::NoIdFree(number),
        }
    }
}

// The lowest id that none of the first n types holds; 0xF00 where each is held.
pub fn free_id(types: &TypeTable, n: usize) -> u32
    requires { n ≤ most_types }
    ensures { Lowest types.now n result }
{
    let mut id: u32 = 0x100;
    'ids: while id < 0xF00 {
        let mut i = 0;
        loop {
            if i == n {
                break 'ids;
            }
            if types[TYPE_WORDS * i + 2] == id {
                id += 1;
                continue 'ids;
            }
            i += 1;
        }
    }
    id
}

// One of the first n types holds an id.
fn in_use(types: &TypeTable, n: usize, id: u32) -> bool
    requires { n ≤ most_types }
    ensures { result ≡ in_use id (list_from (id_word types.now) 0 n) }
{
    for i in 0..n {
        if types[TYPE_WORDS * i + 2] == id {
            return true;
        }
    }
    false
}

// The id of the next type: the given one, or the lowest that is free.
pub fn pick_id(types: &TypeTable, n: usize, given: bool, id: u16) -> Result<u16, IdFault>
    requires { n ≤ most_types }
    ensures { result ≡ id_for (list_from (id_word types.now) 0 n) given id }
{
    if given {
        if id < 0x100 || 0xEFF < id {
            return Err(IdFault::OutsideRange);
        }
        if in_use(types, n, u32::from(id)) {
            return Err(IdFault::InUse);
        }
        return Ok(id);
    }
    let lowest = free_id(types, n);
    if lowest < 0xF00 {
        Ok(lowest as u16)
    } else {
        Err(IdFault::NoneFree)
    }
}
