// One round over the types of a book (document 01, "Order of building"): each type that waits takes its turn.
ghost use Rattle.types.specs.inside.rounds.OneRound.{RoundIn, RoundMade};

use crate::adding::used::Used;
use crate::book::contents::{count_of, type_entry};
use crate::refusals::refusal::Refusal;
use crate::rounds::turn::take_turn;
use crate::tables::lent::Tables;

// The turns of the types that wait, in book order: of the t types of a good book so many, with so much of the tables
// used. Answers how much is used after the round, and how many types still wait.
pub fn one_round(
    book: &[u8],
    t: usize,
    u: Used,
    left: usize,
    tables: &mut Tables,
    tys: &mut [u16],
    done: &mut [u8],
    stuck: &mut [u16],
    tried: &mut [u8],
) -> Result<(Used, usize), Refusal>
    requires { RoundIn book.now t u left tables.old.types tables.old.members tables.old.names
        tys.old done.old stuck.old tried.old }
    ensures { RoundMade book.now t u
        tables.old.types tables.old.members tables.old.names done.old
        tables.new.types tables.new.members tables.new.names done.new
        stuck.new tried.new result }
{
    let mut used = u;
    let mut rest = left;
    let mut at = 4 + 16 * t;
    for i in 0..t {
        if done[i] == 0 {
            let turn = take_turn(book, i, at, tables, used, tys, stuck, tried)?;
            if let Some(next) = turn {
                used = next;
                done[i] = 1;
                rest -= 1;
            }
        }
        at += 16 * count_of(type_entry(book, i).count);
    }
    Ok((used, rest))
}
