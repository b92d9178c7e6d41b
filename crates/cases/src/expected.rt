// What a recorded expectation says of an answer. Its first byte is its form: 0 for no refusal and exactly the bytes
// that follow; 1 for any refusal, and after that of a write the image that follows; 2 for exactly the number and the
// place that follow, and after a write's the image.
ghost use Rattle.std.specs.Prelude.{◌≡◌, ◌≤◌, length};
ghost use Rattle.cases.specs.Expected.{accepts, refuses, agrees_of};

use check::same;

// The number and place of an answer, before all else.
const HEAD: usize = 5;

// The kind of a question that writes.
const WRITE: u8 = 6;

fn accepted(bytes: &[u8], answer: &[u8]) -> bool
    requires { 5 ≤ length answer.now }
    ensures { result ≡ accepts bytes.now answer.now }
{
    if same(&answer[..HEAD], b"\0\0\0\0\0") {
        return same(&answer[HEAD..], bytes);
    }
    false
}

fn refused(kind: u8, image: &[u8], answer: &[u8]) -> bool
    requires { 5 ≤ length answer.now }
    ensures { result ≡ refuses kind image.now answer.now }
{
    let number = answer[0];
    if number < 1 {
        return false;
    }
    if 254 < number {
        return false;
    }
    if kind == WRITE {
        return same(&answer[HEAD..], image);
    }
    true
}

// Is this the answer that is expected of a question of this kind?
pub fn agrees(kind: u8, expected: &[u8], answer: &[u8]) -> bool
    ensures { result ≡ agrees_of kind expected.now answer.now }
{
    if expected.len() < 1 {
        return false;
    }
    if answer.len() < HEAD {
        return false;
    }
    let form = expected[0];
    let rest = &expected[1..];
    if form == 0 {
        return accepted(rest, answer);
    }
    if form == 1 {
        return refused(kind, rest, answer);
    }
    if form == 2 {
        return same(answer, rest);
    }
    false
}
