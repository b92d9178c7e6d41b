// Bools set as bits (document 01, "Writing"): a run of bools up to its close, eight at a time. The bits that no bool
// names keep what stands.
ghost use Rattle.std.specs.Prelude.{◌≡◌, ℕ, ◌+◌, ◌*◌, ◌<◌, ◌≤◌, true, length};
ghost use Rattle.words.specs.Bits.{flat, stamp, val};
ghost use Rattle.values.specs.inside.writing.Bools.{AtLeast, Bools, BoolRun, truths};
ghost use Rattle.values.specs.inside.writing.Passes.{Applied, accepted, left_at};
ghost use Rattle.values.specs.writing.Writing.{bools_in};

use crate::stream::kinds;
use crate::stream::tokens::kind_of;
use words::set_bit;

// The number of the close after a run of bools.
fn close_of(s: &[u8], k: usize) -> usize
    requires { AtLeast s.now k 0 }
    ensures { (m : ℕ) → BoolRun s.now k m → result ≡ k + m }
{
    let mut p = k;
    while kind_of(s, p) != kinds::ARRAY_CLOSE {
        p += 1;
    }
    p
}

// Eight bools from entry k on as a byte.
fn eight(s: &[u8], k: usize) -> u8
    requires { AtLeast s.now k 8 }
    ensures { result ≡ val 8 (truths s.now k) }
{
    let at = 8 + 12 * k;
    s[at]
        + 2 * s[at + 12]
        + 4 * s[at + 24]
        + 8 * s[at + 36]
        + 16 * s[at + 48]
        + 32 * s[at + 60]
        + 64 * s[at + 72]
        + 128 * s[at + 84]
}

// The first 8 * n bools, as n bytes.
fn set_eights(n: usize, s: &[u8], k: usize, image: &mut [u8], base: usize)
    requires at_least { AtLeast s.now k (8 * n) }
    requires inside { base + n ≤ length image.old }
    ensures { flat image.new
        ≡ stamp (8 * base) (8 * n) (truths s.now k) (flat image.old) }
{
    for b in 0..n {
        image[base + b] = eight(s, k + 8 * b);
    }
}

// One bit of a byte of the image.
pub fn put_bit(image: &mut [u8], at: usize, bit: u8, value: bool)
    requires { (at < length image.old) × (bit < 8) }
    ensures { flat image.new ≡ stamp (8 * at + bit) 1 (λ k. value) (flat image.old) }
{
    let mut byte = image[at];
    set_bit(&mut byte, bit, value);
    image[at] = byte;
}

// Fewer than eight bools into one byte.
fn set_few(n: usize, s: &[u8], k: usize, image: &mut [u8], at: usize)
    requires at_least { AtLeast s.now k n }
    requires few { (n < 8) × ((0 < n) → at < length image.old) }
    ensures { flat image.new
        ≡ stamp (8 * at) n (truths s.now k) (flat image.old) }
{
    for j in 0..n {
        put_bit(image, at, j as u8, s[8 + 12 * (k + j)] == 1);
    }
}

// The bools from entry k on, and their close; what comes after it.
pub fn set_bools(s: &[u8], k: usize, image: &mut [u8], base: usize) -> usize
    requires { Bools s.now k image.old base }
    ensures { (total : ℕ)
        → accepted (bools_in total (8 * base) (left_at s.now k) (flat image.old)) ≡ true
        → Applied s.now k result image.old image.new
        (bools_in total (8 * base) (left_at s.now k)) }
{
    let q = close_of(s, k);
    let whole = (q - k) / 8;
    set_eights(whole, s, k, image, base);
    set_few((q - k) % 8, s, k + 8 * whole, image, base + whole);
    q + 1
}
