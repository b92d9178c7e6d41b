// Atomics and strings made normal in place (document 01, "Normal image"): a BOOL's byte becomes 0 or 1, LEN the length
// of the text, and what stands after the text zero; all else is as it is.
ghost use Rattle.std.specs.Prelude.{◌≡◌, ◌+◌, ◌*◌, ◌/◌, ◌≤◌, length};
ghost use Rattle.words.specs.Bits.{digit, flat};
ghost use Rattle.types.specs.atomics.Atomic.{size_of};
ghost use Rattle.types.specs.layout.Placing.{times};
ghost use Rattle.values.specs.inside.normal_image.InPlace.{each_made, made};
ghost use Rattle.values.specs.reading.Leaf.{byte, is_true, str};
ghost use Rattle.values.specs.reading.Tree.{leaf};
ghost use Rattle.values.specs.reading.Trees.{atomics_tree};

use crate::reading::rows::times_of;
use types::Atomic;
use words::Word;

// The byte of a BOOL outside a structure.
fn truth_byte(x: u8) -> u8
    ensures { result ≡ digit (is_true x) }
{
    u8::from(x != 0)
}

// n of them.
fn normal_bools(n: usize, image: &mut [u8], base: usize)
    requires { base + n ≤ length image.old }
    ensures { flat image.new
        ≡ each_made n (made (leaf byte)) 8 (8 * base) (flat image.old) }
{
    for x in &mut image[base..base + n] {
        *x = truth_byte(*x);
    }
}

// An atomic, or n of them where n is not 0.
pub fn normal_atomics(a: Atomic, n: usize, image: &mut [u8], base: usize)
    requires { base + size_of a * times n ≤ length image.old }
    ensures { flat image.new ≡ made (atomics_tree a n) (8 * base) (flat image.old) }
{
    if matches!(a, Atomic::Bool) {
        normal_bools(times_of(n), image, base);
    }
}

// A string; the bytes after its DATA, up to its size, become zeros as well.
pub fn normal_text(capacity: u32, image: &mut [u8], base: usize)
    requires { base + (4 + 4 * ((capacity + 3) / 4)) ≤ length image.old }
    ensures { flat image.new ≡ made (leaf (str capacity)) (8 * base) (flat image.old) }
{
    let room = 4 * ((capacity as usize + 3) / 4);
    let n = u32::load(image, base).min(capacity);
    n.store(image, base);
    let data = base + 4;
    image[data + n as usize..data + room].fill(0);
}
