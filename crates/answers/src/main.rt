// The program `answers`: the public calls behind questions and answers in frames on standard input and output. The
// library `replies` says what each question is answered with. The tables live for the run.
#![tactic(auto)]

ghost use Rattle.types.specs.tables.Kept.{KeptTables};

use frames::{START, answer_room, next_frame, room, send_frame};
use replies::answer;
use types::Tables;

// Answers the question; says whether the answer could be written.
fn reply(question: &[u8], out: &mut [u8], tables: &mut Tables) -> bool
    requires { KeptTables tables.old }
    ensures { KeptTables tables.new }
{
    if out.len() < START {
        return false;
    }
    let long = answer(question, tables, &mut out[START..]);
    send_frame(out, long)
}

// Answers one question; says whether to go on.
fn serve_one(question: &mut [u8], out: &mut [u8], tables: &mut Tables) -> bool
    requires { KeptTables tables.old }
    ensures { KeptTables tables.new }
{
    match next_frame(question) {
        Some(n) => reply(&question[..n], out, tables),
        None => false,
    }
}

// The count only lets the loop be seen to end: no input has as many questions.
fn serve(question: &mut [u8], out: &mut [u8], tables: &mut Tables)
    requires { KeptTables tables.old }
{
    for _ in 0..u64::MAX {
        if !serve_one(question, out, tables) {
            return;
        }
    }
}

fn main() {
    let mut question = room();
    let mut out = answer_room();
    let mut tables = Tables::new();
    serve(&mut question, &mut out, &mut tables);
}
