// The program `layout` (document 01, end of "Reference cases"): reads a declaration book from standard input and
// lists its types on standard output, or the refusal's number and place. A book above 65,536 bytes is refused with 1.
#![tactic(auto)]

ghost use Rattle.std.specs.Prelude.{◌≡◌, length};

mod lines;
mod list;

use crate::lines::say_refused;
use crate::list::list;
use types::{PredefinedIds, Refusal, Tables, build};

// The room of the longest book and one byte more, which shows a longer one. Its length is all that is said of it.
fn room() -> [u8; 65537]
    ensures { 65537 ≡ length result }
{
    [0; 65537]
}

// What a book of any length up to the longest is answered with. The predefined ids are never shown.
fn show(book: &[u8], out: &mut [u8]) {
    let mut tables = Tables::new();
    let ids = PredefinedIds {
        timer: 1,
        counter: 2,
        control: 3,
        string: 4,
    };
    match build(book, ids, &mut tables) {
        Ok(_) => list(&tables, out),
        Err(why) => say_refused(why, out),
    }
}

fn main() {
    let mut out = io::large_buffer();
    let mut book = room();
    let n = io::read_full(0, &mut book);
    if 65536 < n {
        say_refused(Refusal::BookMalformed, &mut out);
        return;
    }
    show(&book[..n], &mut out);
}
