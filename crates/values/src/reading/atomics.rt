// Atomics and arrays of them (document 01, "Reading"): bit strings give one array of all their bits, lowest first,
// other atomics an entry each.
ghost use Rattle.std.specs.Prelude.{◌≡◌, ◌+◌, ◌*◌, ◌<◌, ◌≤◌, [], ◌∷◌, length};
ghost use Rattle.words.specs.Bits.{bit_of, digit};
ghost use Rattle.types.specs.atomics.Atomic.{size_of};
ghost use Rattle.types.specs.layout.Placing.{times};
ghost use Rattle.values.specs.inside.reading.Walk.{atomics_out, bit_token, bits_out, numbers_out, up_to};
ghost use Rattle.values.specs.inside.stream.Laying.{EntriesPut};

use crate::reading::runs::put_run;
use crate::stream::entry::put_entry;
use crate::stream::kinds;
use types::Atomic;

// Bit k of a byte.
fn bit_of(x: u8, k: u8) -> u64
    requires { k < 8 }
    ensures { result ≡ digit (bit_of x k) }
{
    u64::from((x >> k) % 2)
}

// The eight bits of a byte.
fn put_eight(x: u8, out: &mut [u8], at: usize)
    requires { at + 96 ≤ length out.old }
    ensures { EntriesPut out.old at (up_to (bit_token (x ∷ [])) 8) out.new (at + 96) }
{
    for k in 0..8 {
        put_entry(out, at + 12 * usize::from(k), kinds::BOOL, bit_of(x, k));
    }
}

// All bits of some bytes as an array.
fn put_bits(s: &[u8], out: &mut [u8], at: usize) -> usize
    requires { at + 12 * length (bits_out s.now (8 * length s.now)) ≤ length out.old }
    ensures { EntriesPut out.old at (bits_out s.now (8 * length s.now))
        out.new result }
{
    put_entry(out, at, kinds::ARRAY_OPEN, 0);
    let mut p = at + 12;
    for &x in s {
        put_eight(x, out, p);
        p += 96;
    }
    put_entry(out, p, kinds::ARRAY_CLOSE, 0);
    p + 12
}

// n atomics that are no bit strings as an array.
fn put_numbers(a: Atomic, n: usize, s: &[u8], out: &mut [u8], at: usize) -> usize
    requires { (length s.now ≡ size_of a * n)
        × (at + 12 * length (numbers_out a n s.now) ≤ length out.old) }
    ensures { EntriesPut out.old at (numbers_out a n s.now) out.new result }
{
    put_entry(out, at, kinds::ARRAY_OPEN, 0);
    let p = put_run(a, n, s, out, at + 12);
    put_entry(out, p, kinds::ARRAY_CLOSE, 0);
    p + 12
}

// An atomic, or n of them where n is not 0.
pub fn put_atomics(a: Atomic, n: usize, s: &[u8], out: &mut [u8], at: usize) -> usize
    requires { (length s.now ≡ size_of a * times n)
        × (at + 12 * length (atomics_out a n s.now) ≤ length out.old) }
    ensures { EntriesPut out.old at (atomics_out a n s.now) out.new result }
{
    if a.is_bit_string() {
        put_bits(s, out, at)
    } else if n == 0 {
        put_run(a, 1, s, out, at)
    } else {
        put_numbers(a, n, s, out, at)
    }
}
