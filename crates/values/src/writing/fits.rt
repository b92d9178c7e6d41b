// The check of atomics, arrays of them and texts (document 01, "Writing"): whether the entries fit, with no image. Each
// answers the number of the entry after its own, or a refusal.
ghost use Rattle.std.specs.Prelude.{◌≡◌, ℕ, ◌+◌, ◌*◌, ◌^◌, ◌<◌, ◌≤◌, min, true, List};
ghost use Rattle.words.specs.Bits.{Bits};
ghost use Rattle.types.specs.atomics.Atomic.{bit_string, size_of};
ghost use Rattle.types.specs.tables.Lent.{member_at};
ghost use Rattle.values.specs.inside.writing.Effects.{atomic_takes};
ghost use Rattle.values.specs.inside.writing.Passes.{CheckedFrom, WellFormed, left_at};
ghost use Rattle.values.specs.inside.writing.Rows.{LeafRow, member_tree, run_in};
ghost use Rattle.values.specs.reading.Tree.{Tree};
ghost use Rattle.values.specs.reading.Trees.{atomics_tree};
ghost use Rattle.values.specs.stream.Stream.{Token};
ghost use Rattle.values.specs.writing.Effects.{as_text, or_null};
ghost use Rattle.values.specs.writing.Writing.{Outcome, bools_in, elements, write, write_one};

use crate::stream::kinds;
use crate::stream::tokens::{kind_at, kind_of, payload_of};
use crate::writing::limits::{judge, limits_of};
use types::{Atomic, MemberTable, Refusal, Ty, member_row};
use words::high32;

// One atomic, or null. Inlined for pace, as are the two below with this mark: a `Result` then goes through no memory.
#[inline(always)]
pub fn check_atomic(a: Atomic, s: &[u8], n: usize, k: usize) -> Result<usize, Refusal>
    requires { WellFormed s.now n × (k ≤ n) }
    ensures { (w p : ℕ) → CheckedFrom s.now k result
        (write_one (or_null (atomic_takes a)) w p (left_at s.now k)) }
{
    if n <= k {
        return Err(Refusal::EntryMisfit(k as u32));
    }
    match judge(limits_of(a), kind_of(s, k), payload_of(s, k)) {
        None => Ok(k + 1),
        Some(m) => Err(m.at(k)),
    }
}

// A text, or null.
pub fn check_text(capacity: u32, s: &[u8], n: usize, k: usize) -> Result<usize, Refusal>
    requires { WellFormed s.now n × (k ≤ n) }
    ensures { (w p : ℕ) → CheckedFrom s.now k result
        (write_one (or_null (as_text capacity)) w p (left_at s.now k)) }
{
    match kind_at(s, n, k) {
        kinds::NULL => Ok(k + 1),
        kinds::TEXT => {
            if high32(payload_of(s, k)) <= capacity {
                Ok(k + 1)
            } else {
                Err(Refusal::TextTooLong(k as u32))
            }
        }
        _ => Err(Refusal::EntryMisfit(k as u32)),
    }
}

// After the last place of an array only the close fits.
pub fn close_at(s: &[u8], n: usize, k: usize) -> Result<usize, Refusal>
    requires { WellFormed s.now n × (k ≤ n) }
    ensures { (m : ℕ) (one : ℕ → List Token → Bits → Outcome) (w p : ℕ) → (k < n → m ≡ 0)
        → CheckedFrom s.now k result (elements m one w p (left_at s.now k)) }
{
    if n <= k {
        return Err(Refusal::EntryMisfit(k as u32));
    }
    if kind_of(s, k) == kinds::ARRAY_CLOSE {
        return Ok(k + 1);
    }
    Err(Refusal::PastLastPlace(k as u32))
}

// The entry after `count` places, or the end of the entries if it comes first.
fn after(count: usize, n: usize, k: usize) -> usize
    requires { k ≤ n }
    ensures { result ≡ min n (k + count) }
{
    k + count.min(n - k)
}

// Bools for so many bytes, and the close.
fn check_bools(bytes: usize, s: &[u8], n: usize, k: usize) -> Result<usize, Refusal>
    requires { WellFormed s.now n × (k ≤ n) }
    ensures { (p : ℕ) → CheckedFrom s.now k result
        (bools_in (8 * bytes) p (left_at s.now k)) }
{
    let last = after(bytes.saturating_mul(8), n, k);
    for p in k..last {
        match kind_of(s, p) {
            kinds::BOOL => {}
            kinds::ARRAY_CLOSE => return Ok(p + 1),
            _ => return Err(Refusal::EntryMisfit(p as u32)),
        }
    }
    close_at(s, n, last)
}

// Up to `count` atomics, nulls among them, and the close, which is no atomic.
fn check_numbers(a: Atomic, count: usize, s: &[u8], n: usize, k: usize) -> Result<usize, Refusal>
    requires { WellFormed s.now n × (k ≤ n) }
    ensures { (w p : ℕ) → CheckedFrom s.now k result
        (elements count (write_one (or_null (atomic_takes a)) w) w p (left_at s.now k)) }
{
    let limits = limits_of(a);
    let last = after(count, n, k);
    for p in k..last {
        let kind = kind_of(s, p);
        if let Some(m) = judge(limits, kind, payload_of(s, p)) {
            if kind == kinds::ARRAY_CLOSE {
                return Ok(p + 1);
            }
            return Err(m.at(p));
        }
    }
    close_at(s, n, last)
}

// One bit string: a whole number, or an array of bools.
fn check_bits(a: Atomic, s: &[u8], n: usize, k: usize) -> Result<usize, Refusal>
    requires well_formed { WellFormed s.now n × (k ≤ n) }
    requires bits { bit_string a ≡ true }
    ensures { (p : ℕ) → CheckedFrom s.now k result
        (write (atomics_tree a 0) p (left_at s.now k)) }
{
    if kind_at(s, n, k) == kinds::ARRAY_OPEN {
        return check_bools(a.size() as usize, s, n, k + 1);
    }
    check_atomic(a, s, n, k)
}

// What is inside an array of atomics. Bit strings take bools if the first entry is a bool.
fn check_run(a: Atomic, count: usize, s: &[u8], n: usize, k: usize) -> Result<usize, Refusal>
    requires well_formed { WellFormed s.now n × (k ≤ n) }
    requires count_bound { size_of a * count < 2 ^ 64 }
    ensures { (p : ℕ) → CheckedFrom s.now k result
        (run_in a count p (left_at s.now k)) }
{
    if a.is_bit_string() && kind_at(s, n, k) == kinds::BOOL {
        return check_bools(a.size() as usize * count, s, n, k);
    }
    check_numbers(a, count, s, n, k)
}

// An array of atomics, or null.
fn check_array(a: Atomic, count: usize, s: &[u8], n: usize, k: usize) -> Result<usize, Refusal>
    requires well_formed { WellFormed s.now n × (k ≤ n) }
    requires count_bound { (size_of a * count < 2 ^ 64) × (0 < count) }
    ensures { (p : ℕ) → CheckedFrom s.now k result
        (write (atomics_tree a count) p (left_at s.now k)) }
{
    match kind_at(s, n, k) {
        kinds::NULL => Ok(k + 1),
        kinds::ARRAY_OPEN => check_run(a, count, s, n, k + 1),
        _ => Err(Refusal::EntryMisfit(k as u32)),
    }
}

// An atomic, or an array of them where `count` is not 0.
#[inline(always)]
pub fn check_atomics(
    a: Atomic,
    count: usize,
    s: &[u8],
    n: usize,
    k: usize,
) -> Result<usize, Refusal>
    requires well_formed { WellFormed s.now n × (k ≤ n) }
    requires count_bound { size_of a * count < 2 ^ 64 }
    ensures { (p : ℕ) → CheckedFrom s.now k result
        (write (atomics_tree a count) p (left_at s.now k)) }
{
    if count != 0 {
        return check_array(a, count, s, n, k);
    }
    if a.is_bit_string() {
        return check_bits(a, s, n, k);
    }
    check_atomic(a, s, n, k)
}

// The member in a row, where it is no structure.
#[inline(always)]
pub fn check_leaf(
    members: &MemberTable,
    row: usize,
    s: &[u8],
    n: usize,
    k: usize,
) -> Result<usize, Refusal>
    requires well_formed { WellFormed s.now n × (k ≤ n) }
    requires leaf_row { LeafRow members.now row }
    ensures { (trees : ℕ → Tree) (p : ℕ) → CheckedFrom s.now k result
        (write (member_tree trees (member_at members.now row)) p (left_at s.now k)) }
{
    let m = member_row(members, row);
    match m.bit {
        Some(_) => check_atomic(Atomic::Bool, s, n, k),
        None => match m.ty {
            Ty::Atomic(a) => check_atomics(a, m.count as usize, s, n, k),
            Ty::Struct(_) => Err(Refusal::EntryMisfit(k as u32)),
        },
    }
}
