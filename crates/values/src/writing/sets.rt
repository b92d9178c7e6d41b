// Atomics, arrays of them and texts set in an image (document 01, "Writing"), once the check has accepted every entry.
// Each answers the number of the entry after its own.
ghost use Rattle.std.specs.Prelude.{◌≡◌, ℕ, ◌+◌, ◌*◌, ◌<◌, ◌≤◌, true, length, replicate};
ghost use Rattle.std.proofs.lemmas.List.Edits.{sets};
ghost use Rattle.words.specs.Bits.{flat};
ghost use Rattle.words.specs.Words.{bytes_of};
ghost use Rattle.types.specs.atomics.Atomic.{bit_string, size_of};
ghost use Rattle.types.specs.layout.Laid.{first_bit};
ghost use Rattle.types.specs.layout.Placing.{times};
ghost use Rattle.types.specs.tables.Lent.{member_at};
ghost use Rattle.values.specs.inside.writing.Effects.{atomic_takes};
ghost use Rattle.values.specs.inside.writing.Passes.{Applied, accepted, left_at};
ghost use Rattle.values.specs.inside.writing.Rows.{LeafRow, MemberHere, Width, member_tree, run_in};
ghost use Rattle.values.specs.reading.Leaf.{flag};
ghost use Rattle.values.specs.reading.Tree.{Tree};
ghost use Rattle.values.specs.reading.Trees.{atomics_tree};
ghost use Rattle.values.specs.stream.Form.{stream_ok};
ghost use Rattle.values.specs.writing.Effects.{as_text, or_null, taken};
ghost use Rattle.values.specs.writing.Writing.{elements, write, write_one};

use crate::stream::kinds;
use crate::stream::tokens::{kind_of, payload_of};
use crate::writing::bools::{put_bit, set_bools};
use types::{Atomic, MemberTable, Ty, member_row};
use words::{Word, copy, high32, low32};

// The low 1, 2, 4 or 8 bytes of a number.
fn put_low(image: &mut [u8], at: usize, size: usize, x: u64)
    requires { (at + size ≤ length image.old) × Width size }
    ensures { image.new ≡ sets image.old at (bytes_of size x) }
{
    match size {
        4 => low32(x).store(image, at),
        2 => ((x % 0x1_0000) as u16).store(image, at),
        1 => ((x % 0x100) as u8).store(image, at),
        _ => x.store(image, at),
    }
}

// Zeros at n places.
pub fn clear(image: &mut [u8], at: usize, n: usize)
    requires { at + n ≤ length image.old }
    ensures { image.new ≡ sets image.old at (replicate n 0) }
{
    for i in 0..n {
        image[at + i] = 0;
    }
}

// One atomic, or null.
pub fn set_atomic(a: Atomic, s: &[u8], k: usize, image: &mut [u8], base: usize) -> usize
    requires formed { (stream_ok s.now ≡ true) × (base + size_of a ≤ length image.old) }
    requires right { accepted (write_one (or_null (atomic_takes a)) (8 * size_of a) (8 * base) (left_at s.now k)
        (flat image.old)) ≡ true }
    ensures { Applied s.now k result image.old image.new
        (write_one (or_null (atomic_takes a)) (8 * size_of a) (8 * base) (left_at s.now k)) }
{
    if kind_of(s, k) == kinds::NULL {
        return k + 1;
    }
    put_low(image, base, a.size() as usize, payload_of(s, k));
    k + 1
}

// One BOOL of a structure, or null.
fn set_flag(s: &[u8], k: usize, image: &mut [u8], at: usize, bit: u8) -> usize
    requires formed { (stream_ok s.now ≡ true) × ((at < length image.old) × (bit < 8)) }
    requires right { accepted (write_one (or_null (taken flag)) 1 (8 * at + bit) (left_at s.now k)
        (flat image.old)) ≡ true }
    ensures { Applied s.now k result image.old image.new
        (write_one (or_null (taken flag)) 1 (8 * at + bit) (left_at s.now k)) }
{
    if kind_of(s, k) == kinds::NULL {
        return k + 1;
    }
    put_bit(image, at, bit, payload_of(s, k) == 1);
    k + 1
}

// A text, or null: LEN, the text, and zeros in the rest of DATA.
pub fn set_text(capacity: u32, s: &[u8], k: usize, image: &mut [u8], base: usize) -> usize
    requires formed { (stream_ok s.now ≡ true) × (base + 4 + capacity ≤ length image.old) }
    requires right { accepted (write_one (or_null (as_text capacity)) (32 + 8 * capacity) (8 * base) (left_at s.now k)
        (flat image.old)) ≡ true }
    ensures { Applied s.now k result image.old image.new
        (write_one (or_null (as_text capacity)) (32 + 8 * capacity) (8 * base) (left_at s.now k)) }
{
    if kind_of(s, k) == kinds::NULL {
        return k + 1;
    }
    let x = payload_of(s, k);
    let long = high32(x) as usize;
    let start = 4 + 12 * u32::load(s, 0) as usize + low32(x) as usize;
    high32(x).store(image, base);
    copy(image, base + 4, &s[start..start + long]);
    clear(image, base + 4 + long, capacity as usize - long);
    k + 1
}

// Up to `count` atomics, nulls among them, and the close.
fn set_numbers(a: Atomic, count: usize, s: &[u8], k: usize, image: &mut [u8], base: usize) -> usize
    requires formed { (stream_ok s.now ≡ true) × (base + size_of a * count ≤ length image.old) }
    requires right { accepted (elements count (write_one (or_null (atomic_takes a)) (8 * size_of a)) (8 * size_of a)
        (8 * base)
        (left_at s.now k) (flat image.old)) ≡ true }
    ensures { Applied s.now k result image.old image.new
        (elements count (write_one (or_null (atomic_takes a)) (8 * size_of a)) (8 * size_of a) (8 * base)
        (left_at s.now k)) }
{
    let size = a.size() as usize;
    for e in 0..count {
        let p = k + e;
        let kind = kind_of(s, p);
        if kind == kinds::ARRAY_CLOSE {
            return p + 1;
        }
        if kind != kinds::NULL {
            put_low(image, base + size * e, size, payload_of(s, p));
        }
    }
    k + count + 1
}

// One bit string: a whole number, or an array of bools, missing ones zero.
fn set_bits(a: Atomic, s: &[u8], k: usize, image: &mut [u8], base: usize) -> usize
    requires formed { (stream_ok s.now ≡ true) × (base + size_of a ≤ length image.old) }
    requires bits { (bit_string a ≡ true)
        × (accepted (write (atomics_tree a 0) (8 * base) (left_at s.now k) (flat image.old)) ≡ true) }
    ensures { Applied s.now k result image.old image.new
        (write (atomics_tree a 0) (8 * base) (left_at s.now k)) }
{
    if kind_of(s, k) == kinds::ARRAY_OPEN {
        put_low(image, base, a.size() as usize, 0);
        return set_bools(s, k + 1, image, base);
    }
    set_atomic(a, s, k, image, base)
}

// What is inside an array of atomics.
fn set_run(a: Atomic, count: usize, s: &[u8], k: usize, image: &mut [u8], base: usize) -> usize
    requires formed { (stream_ok s.now ≡ true) × (base + size_of a * count ≤ length image.old) }
    requires right { accepted (run_in a count (8 * base) (left_at s.now k) (flat image.old)) ≡ true }
    ensures { Applied s.now k result image.old image.new
        (run_in a count (8 * base) (left_at s.now k)) }
{
    if a.is_bit_string() && kind_of(s, k) == kinds::BOOL {
        return set_bools(s, k, image, base);
    }
    set_numbers(a, count, s, k, image, base)
}

// An array of atomics, or null.
fn set_array(a: Atomic, count: usize, s: &[u8], k: usize, image: &mut [u8], base: usize) -> usize
    requires formed { (stream_ok s.now ≡ true) × (base + size_of a * count ≤ length image.old) }
    requires some { (0 < count)
        × (accepted (write (atomics_tree a count) (8 * base) (left_at s.now k) (flat image.old)) ≡ true) }
    ensures { Applied s.now k result image.old image.new
        (write (atomics_tree a count) (8 * base) (left_at s.now k)) }
{
    if kind_of(s, k) == kinds::NULL {
        return k + 1;
    }
    set_run(a, count, s, k + 1, image, base)
}

// An atomic, or an array of them where `count` is not 0.
pub fn set_atomics(
    a: Atomic,
    count: usize,
    s: &[u8],
    k: usize,
    image: &mut [u8],
    base: usize,
) -> usize
    requires formed { (stream_ok s.now ≡ true) × (base + size_of a * times count ≤ length image.old) }
    requires right { accepted (write (atomics_tree a count) (8 * base) (left_at s.now k) (flat image.old)) ≡ true }
    ensures { Applied s.now k result image.old image.new
        (write (atomics_tree a count) (8 * base) (left_at s.now k)) }
{
    if count != 0 {
        return set_array(a, count, s, k, image, base);
    }
    if a.is_bit_string() {
        return set_bits(a, s, k, image, base);
    }
    set_atomic(a, s, k, image, base)
}

// The member in a row, where it is no structure; its structure begins at `base`.
pub fn set_leaf(
    members: &MemberTable,
    row: usize,
    s: &[u8],
    k: usize,
    image: &mut [u8],
    base: usize,
) -> usize
    requires formed { (stream_ok s.now ≡ true) × (LeafRow members.now row
        × ((sizes : ℕ → ℕ) × MemberHere sizes (member_at members.now row) base image.old)) }
    requires right { (trees : ℕ → Tree) × (accepted (write (member_tree trees (member_at members.now row))
        (8 * base + first_bit (member_at members.now row)) (left_at s.now k) (flat image.old)) ≡ true) }
    ensures { (trees : ℕ → Tree) → Applied s.now k result image.old image.new
        (write (member_tree trees (member_at members.now row))
        (8 * base + first_bit (member_at members.now row)) (left_at s.now k)) }
{
    let m = member_row(members, row);
    let start = base + m.offset as usize;
    match m.bit {
        Some(b) => set_flag(s, k, image, start, b),
        None => match m.ty {
            Ty::Atomic(a) => set_atomics(a, m.count as usize, s, k, image, start),
            Ty::Struct(_) => k + 1,
        },
    }
}
