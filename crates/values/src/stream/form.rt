// The form of a value stream (document 01, "Value stream"; refusal 17): the number of entries, the entries, and the
// text bodies, gapless, in entry order, to the stream's end.
ghost use Rattle.std.specs.Prelude.{◌≡◌, ◌+◌, ◌*◌, ◌^◌, ◌≤◌, length};
ghost use Rattle.values.specs.inside.stream.Steps.{Moved, most_of, text_step_of};
ghost use Rattle.values.specs.stream.Form.{formed, stream_ok};
ghost use Rattle.values.specs.stream.Stream.{most_bytes};

use crate::stream::kinds;
use words::Word;

// The longest stream.
pub const MOST_BYTES: usize = 2147483648;

// The kinds as the first four bytes of an entry say them: the three after the kind are zeros.
const BOOL: u32 = kinds::BOOL as u32;

const SIGNED: u32 = kinds::SIGNED as u32;

const UNSIGNED: u32 = kinds::UNSIGNED as u32;

const REAL: u32 = kinds::REAL as u32;

const LREAL: u32 = kinds::LREAL as u32;

const TEXT: u32 = kinds::TEXT as u32;

const MEMBER: u32 = kinds::MEMBER as u32;

const NO_KIND: u32 = kinds::NO_KIND as u32;

// The greatest payload of a kind that is no text: a bool, 32 bits, 64 bits, or none.
#[tactic(auto, unfolding(crate::specs::inside::stream::Steps::most_of))]
fn most_of(kind: u32) -> u64
    ensures { result ≡ most_of kind }
{
    match kind {
        BOOL => 1,
        SIGNED | UNSIGNED | LREAL => u64::MAX,
        REAL | MEMBER => u64::from(u32::MAX),
        _ => 0,
    }
}

// Where the text after an entry must begin, counted from the bodies' start, or that the entry is malformed: a text
// begins where the one before it ended.
fn other_place(head: u32, x: u64, place: usize) -> Option<usize>
    requires { place ≤ 1152921504606846976 }
    ensures { Moved place (text_step_of head x place) result }
{
    if NO_KIND <= head {
        return None;
    }
    if head == TEXT {
        let begin = (x % 0x1_0000_0000) as usize;
        let long = (x / 0x1_0000_0000) as usize;
        return (begin == place).then_some(place + long);
    }
    (x <= most_of(head)).then_some(place)
}

// The same with the kinds first that streams are full of: bools, signed numbers, members and brackets. The first four
// bytes are the kind if the three after it are zeros, else a number above every kind; the payload comes in two halves,
// since these kinds need no more than a look at each.
fn next_place(head: u32, low: u32, high: u32, place: usize) -> Option<usize>
    requires { place ≤ 1152921504606846976 }
    ensures { Moved place (text_step_of head (low + 2 ^ 32 * high) place) result }
{
    if head == SIGNED {
        return Some(place);
    }
    if head == BOOL {
        return (high == 0 && low < 2).then_some(place);
    }
    if MEMBER <= head {
        if head < NO_KIND && high == 0 && (head == MEMBER || low == 0) {
            return Some(place);
        }
        return None;
    }
    other_place(
        head,
        u64::from(low) + 0x1_0000_0000 * u64::from(high),
        place,
    )
}

// The n entries of a stream whose bodies begin at a place.
fn entries_ok(s: &[u8], base: usize, n: usize) -> bool
    requires { (base ≡ 4 + 12 * n) × ((base ≤ length s.now) × (length s.now ≤ most_bytes)) }
    ensures { result ≡ formed s.now base 0 n 0 }
{
    let mut place = 0;
    for k in 0..n {
        let at = 4 + 12 * k;
        let Some(next) = next_place(
            u32::load(s, at),
            u32::load(s, at + 4),
            u32::load(s, at + 8),
            place,
        ) else {
            return false;
        };
        place = next;
    }
    base + place == s.len()
}

// Whether some bytes are a value stream.
pub fn stream_ok(s: &[u8]) -> bool
    ensures { result ≡ stream_ok s.now }
{
    if s.len() < 4 || MOST_BYTES < s.len() {
        return false;
    }
    let n = u32::load(s, 0) as usize;
    let base = 4 + 12 * n;
    base <= s.len() && entries_ok(s, base, n)
}
