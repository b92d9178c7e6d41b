// Which entries an atomic takes (document 01, "Writing"): BOOL kind 1, REAL 4, LREAL 5; the others a whole number,
// signed or unsigned, where its value is in range.
ghost use Rattle.std.specs.Prelude.{◌≡◌, ◌^◌, ◌<◌};
ghost use Rattle.types.specs.refusals.Refusal.{number_of, place_of};
ghost use Rattle.values.specs.inside.writing.Effects.{number_in};
ghost use Rattle.values.specs.inside.writing.Limits.{above_misfit, limits_of, misfit, signed_misfit};
ghost use Rattle.values.specs.inside.writing.Limits.{whole_misfit};

use crate::stream::kinds;
use types::{Atomic, Refusal};

// The one kind that is taken, or 2 for whole numbers: these have a greatest number, and a greatest that is too low, a
// number below zero being 2^64 more.
#[derive(Clone, Copy, Debug, PartialEq, Eq)]
pub struct Limits {
    pub kind: u8,
    pub under: u64,
    pub most: u64,
}

// Why an entry is not taken: it does not fit here, or its number is out of range.
#[derive(Clone, Copy, Debug, PartialEq, Eq)]
pub enum Misfit {
    Kind,
    Range,
}

impl Misfit {
    // The refusal of entry k.
    pub fn at(self, k: usize) -> Refusal
        requires { k < 2 ^ 32 }
        ensures { (number_of result ≡ number_in self) × (place_of result ≡ k) }
    {
        match self {
            Misfit::Kind => Refusal::EntryMisfit(k as u32),
            Misfit::Range => Refusal::NumberOutOfRange(k as u32),
        }
    }
}

fn one_kind(kind: u8) -> Limits
    ensures { result ≡ record { kind = kind; under = 0; most = 0 } }
{
    Limits {
        kind,
        under: 0,
        most: 0,
    }
}

fn wholes(under: u64, most: u64) -> Limits
    ensures { result ≡ record { kind = 2; under = under; most = most } }
{
    Limits {
        kind: kinds::SIGNED,
        under,
        most,
    }
}

pub fn limits_of(a: Atomic) -> Limits
    ensures { result ≡ limits_of a }
{
    match a {
        Atomic::Bool => one_kind(kinds::BOOL),
        Atomic::SInt => wholes(0xFFFF_FFFF_FFFF_FF7F, 0x7F),
        Atomic::Int => wholes(0xFFFF_FFFF_FFFF_7FFF, 0x7FFF),
        Atomic::DInt => wholes(0xFFFF_FFFF_7FFF_FFFF, 0x7FFF_FFFF),
        Atomic::LInt => wholes(0x7FFF_FFFF_FFFF_FFFF, 0x7FFF_FFFF_FFFF_FFFF),
        Atomic::USInt => wholes(0xFFFF_FFFF_FFFF_FFFF, 0xFF),
        Atomic::UInt => wholes(0xFFFF_FFFF_FFFF_FFFF, 0xFFFF),
        Atomic::UDInt => wholes(0xFFFF_FFFF_FFFF_FFFF, 0xFFFF_FFFF),
        Atomic::ULInt => wholes(0xFFFF_FFFF_FFFF_FFFF, 0xFFFF_FFFF_FFFF_FFFF),
        Atomic::Real => one_kind(kinds::REAL),
        Atomic::LReal => one_kind(kinds::LREAL),
        Atomic::Byte => wholes(0xFFFF_FFFF_FFFF_FF7F, 0xFF),
        Atomic::Word => wholes(0xFFFF_FFFF_FFFF_7FFF, 0xFFFF),
        Atomic::DWord => wholes(0xFFFF_FFFF_7FFF_FFFF, 0xFFFF_FFFF),
        Atomic::LWord => wholes(0x7FFF_FFFF_FFFF_FFFF, 0xFFFF_FFFF_FFFF_FFFF),
    }
}

fn above_misfit(f: Limits, x: u64) -> Option<Misfit>
    ensures { result ≡ above_misfit f x }
{
    if x <= f.most {
        None
    } else {
        Some(Misfit::Range)
    }
}

fn signed_misfit(f: Limits, x: u64) -> Option<Misfit>
    ensures { result ≡ signed_misfit f x }
{
    if x < 0x8000_0000_0000_0000 {
        return above_misfit(f, x);
    }
    if f.under < x {
        None
    } else {
        Some(Misfit::Range)
    }
}

fn whole_misfit(f: Limits, kind: u8, x: u64) -> Option<Misfit>
    ensures { result ≡ whole_misfit f kind x }
{
    match kind {
        kinds::SIGNED => signed_misfit(f, x),
        kinds::UNSIGNED => above_misfit(f, x),
        _ => Some(Misfit::Kind),
    }
}

// Whether an entry of a kind and a payload is taken, null among them, or why not.
pub fn judge(f: Limits, kind: u8, x: u64) -> Option<Misfit>
    ensures { result ≡ misfit f kind x }
{
    if kind == kinds::NULL {
        return None;
    }
    if f.kind == kinds::SIGNED {
        return whole_misfit(f, kind, x);
    }
    if kind == f.kind {
        None
    } else {
        Some(Misfit::Kind)
    }
}
