// One turn: the next case of the input, its question answered and compared.
ghost use Rattle.std.specs.Prelude.{◌≤◌};
ghost use Rattle.types.specs.tables.Kept.{KeptTables};

use crate::expected::agrees;
use crate::lines::say_differs;
use frames::{next_frame, read_frame};
use replies::answer;
use types::Tables;

// A case whose answer is as expected or another, one that is cut short, or the end of the input.
#[derive(Clone, Copy, Debug, PartialEq, Eq)]
pub enum Turn {
    Same,
    Other,
    Cut,
    End,
}

// Says where a case differs, and counts it; one that is cut short does.
pub fn count_other(turn: Turn, number: u64) -> u64
    ensures { result ≤ 1 }
{
    match turn {
        Turn::Same | Turn::End => 0,
        Turn::Other | Turn::Cut => {
            say_differs(number);
            1
        }
    }
}

// An empty question has no kind.
fn kind_of(question: &[u8]) -> u8 {
    question.first().copied().unwrap_or(0)
}

// Is the question answered as expected?
fn replay(question: &[u8], expected: &[u8], out: &mut [u8], tables: &mut Tables) -> Turn
    requires { KeptTables tables.old }
    ensures { KeptTables tables.new }
{
    let long = answer(question, tables, out);
    if out.len() < long {
        return Turn::Other;
    }
    if agrees(kind_of(question), expected, &out[..long]) {
        return Turn::Same;
    }
    Turn::Other
}

// Reads what is expected of a question's answer.
fn check_answer(question: &[u8], expected: &mut [u8], out: &mut [u8], tables: &mut Tables) -> Turn
    requires { KeptTables tables.old }
    ensures { KeptTables tables.new }
{
    match next_frame(expected) {
        Some(n) => replay(question, &expected[..n], out, tables),
        None => Turn::Cut,
    }
}

pub fn next_case(
    question: &mut [u8],
    expected: &mut [u8],
    out: &mut [u8],
    tables: &mut Tables,
) -> Turn
    requires { KeptTables tables.old }
    ensures { KeptTables tables.new }
{
    match read_frame(question) {
        Ok(Some(n)) => check_answer(&question[..n], expected, out, tables),
        Ok(None) => Turn::End,
        Err(_) => Turn::Cut,
    }
}
