// Numbers one after the other (document 01, "Reading"): an entry for each of n atomics of one type. There is an
// instance of the loop for each size, for pace: a test of the size at each element would cost more than the element.
ghost use Rattle.std.specs.Prelude.{◌≡◌, ℕ, ◌+◌, ◌*◌, ◌≤◌, length};
ghost use Rattle.types.specs.atomics.Atomic.{size_of};
ghost use Rattle.values.specs.inside.reading.Numbers.{NumberRun};
ghost use Rattle.values.specs.inside.reading.Walk.{element_out, up_to};
ghost use Rattle.values.specs.inside.stream.Laying.{EntriesPut};

use crate::reading::numbers::{extend, form_of, truth};
use crate::stream::entry::put_entry;
use crate::stream::kinds;
use types::Atomic;
use words::Word;

// BOOLs outside a structure: a byte each.
fn put_truths(n: usize, s: &[u8], out: &mut [u8], at: usize) -> usize
    requires { (n ≤ length s.now) × (at + 12 * n ≤ length out.old) }
    ensures { EntriesPut out.old at (up_to (element_out Atomic.Bool s.now) n)
        out.new result }
{
    let mut p = at;
    for i in 0..n {
        put_entry(out, p, kinds::BOOL, truth(s[i]));
        p += 12;
    }
    p
}

// Numbers as wide as a W.
fn put_wide<W: Word + Into<u64>>(a: Atomic, n: usize, s: &[u8], out: &mut [u8], at: usize) -> usize
    requires run { NumberRun a W.BYTES n s.now × (at + 12 * n ≤ length out.old) }
    requires widened { (w : W) (x : ℕ) → W.converts w x → x ≡ W.number w }
    ensures { EntriesPut out.old at (up_to (element_out a s.now) n) out.new result }
{
    let f = form_of(a);
    let mut p = at;
    for i in 0..n {
        let x = W::load(s, W::BYTES * i).into();
        put_entry(out, p, f.kind, extend(f, x));
        p += 12;
    }
    p
}

// n atomics, an entry each; where the next entry goes. An arm for each atomic, for pace: its kind and its sign are then
// known in the loop.
pub fn put_run(a: Atomic, n: usize, s: &[u8], out: &mut [u8], at: usize) -> usize
    requires { (size_of a * n ≤ length s.now) × (at + 12 * n ≤ length out.old) }
    ensures { EntriesPut out.old at (up_to (element_out a s.now) n) out.new result }
{
    match a {
        Atomic::Bool => put_truths(n, s, out, at),
        Atomic::SInt => put_wide::<u8>(a, n, s, out, at),
        Atomic::Int => put_wide::<u16>(a, n, s, out, at),
        Atomic::DInt => put_wide::<u32>(a, n, s, out, at),
        Atomic::LInt => put_wide::<u64>(a, n, s, out, at),
        Atomic::USInt => put_wide::<u8>(a, n, s, out, at),
        Atomic::UInt => put_wide::<u16>(a, n, s, out, at),
        Atomic::UDInt => put_wide::<u32>(a, n, s, out, at),
        Atomic::ULInt => put_wide::<u64>(a, n, s, out, at),
        Atomic::Real => put_wide::<u32>(a, n, s, out, at),
        Atomic::LReal => put_wide::<u64>(a, n, s, out, at),
        Atomic::Byte => put_wide::<u8>(a, n, s, out, at),
        Atomic::Word => put_wide::<u16>(a, n, s, out, at),
        Atomic::DWord => put_wide::<u32>(a, n, s, out, at),
        Atomic::LWord => put_wide::<u64>(a, n, s, out, at),
    }
}
