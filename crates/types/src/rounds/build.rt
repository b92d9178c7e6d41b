// Building a registry from a declaration book (document 01, "Order of building"): the four predefined types, then
// rounds over the types that wait. A refusal leaves all three tables zero.
ghost use Rattle.std.specs.Prelude.{◌≡◌, ◌<◌, ◌≤◌, true, length};
ghost use Rattle.types.specs.inside.rounds.Build.{FirstWaits, Cleared, AtMost, Scratch, RunIn};
ghost use Rattle.types.specs.layout.Predefined.{predefined};
ghost use Rattle.types.specs.rounds.Build.{build_of, Ended};
ghost use Rattle.types.specs.rounds.Turns.{rounds_from};

use crate::book::contents::{book_ok, count_of};
use crate::layout::predefined::{PredefinedIds, ids_ok, put_predefined};
use crate::refusals::refusal::Refusal;
use crate::rounds::round::one_round;
use crate::tables::lent::{MEMBER_WORDS, MEMBERS, NAME_BYTES, TYPE_WORDS, TYPES, Tables};
use words::Word;

// Tables of no types.
fn clear(tables: &mut Tables)
    ensures { Cleared tables.new.types tables.new.members tables.new.names }
{
    tables.types = [0; TYPES * TYPE_WORDS];
    tables.members = [0; MEMBERS * MEMBER_WORDS];
    tables.names = [0; NAME_BYTES];
}

// The first of t types that waits by its flag, 0 where none does.
fn first_waiting(done: &[u8], t: usize) -> usize
    requires { t ≤ length done.now }
    ensures { FirstWaits done.now t result }
{
    for i in 0..t {
        if done[i] == 0 {
            return i;
        }
    }
    0
}

// The predefined types, then rounds over the t types of a good book until none waits.
fn run(
    book: &[u8],
    t: usize,
    ids: PredefinedIds,
    tables: &mut Tables,
    tys: &mut [u16],
    done: &mut [u8],
    stuck: &mut [u16],
    tried: &mut [u8],
) -> Result<u32, Refusal>
    requires { RunIn book.now t ids tables.old.types tables.old.members tables.old.names
        tys.old done.old stuck.old tried.old }
    ensures { Ended (rounds_from book.now (predefined ids))
        tables.new.types tables.new.members tables.new.names result }
{
    let mut u = put_predefined(tables, ids);
    let mut left = t;
    while 0 < left {
        match one_round(book, t, u, left, tables, tys, done, stuck, tried) {
            Ok((next, rest)) => {
                if rest == left {
                    clear(tables);
                    return Err(Refusal::TypesUnknown(first_waiting(done, t) as u32));
                }
                u = next;
                left = rest;
            }
            Err(x) => {
                clear(tables);
                return Err(x);
            }
        }
    }
    Ok(u.types as u32)
}

// The registry of a book, with a scratch that is lent.
fn build_with(
    book: &[u8],
    ids: PredefinedIds,
    tables: &mut Tables,
    tys: &mut [u16],
    done: &mut [u8],
    stuck: &mut [u16],
    tried: &mut [u8],
) -> Result<u32, Refusal>
    requires { Scratch book.now tys.old done.old stuck.old tried.old }
    ensures { Ended (build_of ids book.now)
        tables.new.types tables.new.members tables.new.names result }
{
    clear(tables);
    if !ids_ok(ids) {
        return Err(Refusal::PredefinedIds);
    }
    if !book_ok(book) {
        return Err(Refusal::BookMalformed);
    }
    let t = count_of(u16::load(book, 0));
    run(book, t, ids, tables, tys, done, stuck, tried)
}

// The same with a scratch of its own, for a book of at most T types and M members.
fn build_sized<const T: usize, const M: usize>(
    book: &[u8],
    ids: PredefinedIds,
    tables: &mut Tables,
) -> Result<u32, Refusal>
    requires sized { (T ≤ 65536) × (M ≤ 65536) }
    requires few { AtMost book.now T M }
    ensures { Ended (build_of ids book.now)
        tables.new.types tables.new.members tables.new.names result }
{
    let mut tys = [0u16; M];
    let mut done = [0u8; T];
    let mut stuck = [0u16; T];
    let mut tried = [0u8; T];
    build_with(
        book, ids, tables, &mut tys, &mut done, &mut stuck, &mut tried,
    )
}

// A book that a small scratch is enough for; one that is too short for its counts is refused before.
fn is_small(book: &[u8]) -> bool
    ensures { result ≡ true → AtMost book.now 256 2048 }
{
    if book.len() < 4 {
        return true;
    }
    count_of(u16::load(book, 0)) <= 256 && count_of(u16::load(book, 2)) <= 2048
}

// The registry of a book in the lent tables, after the predefined types under the given ids; with a scratch that is
// enough for any book, or, for pace, a small one: that zeroes 5 KB where any other zeroes 384.
pub fn build(book: &[u8], ids: PredefinedIds, tables: &mut Tables) -> Result<u32, Refusal>
    ensures { Ended (build_of ids book.now)
        tables.new.types tables.new.members tables.new.names result }
{
    if is_small(book) {
        build_sized::<256, 2048>(book, ids, tables)
    } else {
        build_sized::<65536, 65536>(book, ids, tables)
    }
}
