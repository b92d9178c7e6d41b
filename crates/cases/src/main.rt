// The program `cases`: replays recorded answers. Standard input has cases, each two frames, a question and what is
// expected of its answer; the library `replies` answers, as in program `answers`. A line is printed for each case whose
// answer is another, numbered from 0, and at the end how many there were.
#![tactic(auto)]

ghost use Rattle.types.specs.tables.Kept.{KeptTables};

mod expected;
mod lines;
mod turns;

use crate::lines::say_sum;
use crate::turns::{Turn, count_other, next_case};
use frames::{answer_room, room};
use types::Tables;

// The count of cases also lets the loop be seen to end: no input has as many.
fn replay_all(question: &mut [u8], expected: &mut [u8], out: &mut [u8], tables: &mut Tables)
    requires { KeptTables tables.old }
{
    let mut different: u64 = 0;
    for number in 0..u64::MAX {
        let turn = next_case(question, expected, out, tables);
        if turn == Turn::End {
            say_sum(number, different);
            return;
        }
        different += count_other(turn, number);
        // After a case that is cut short there is none.
        if turn == Turn::Cut {
            say_sum(number + 1, different);
            return;
        }
    }
}

fn main() {
    let mut question = room();
    let mut expected = room();
    let mut out = answer_room();
    let mut tables = Tables::new();
    replay_all(&mut question, &mut expected, &mut out, &mut tables);
}
